// The two tables that a filling lies in.
#![tactic(auto)]

pub mod tracks;
