// What the test programs have in common: commands of a script and records of jobs (oracle/README.md), garbage
// in rooms, numbers changed one at a time, hashes and printed lines. Only test programs call it.
#![tactic(auto)]

pub mod command;
pub mod edit;
pub mod hash;
pub mod lend;
pub mod records;
pub mod show;
pub mod slot;
