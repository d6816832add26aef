// One copy more over a state's arrays (document 02, W5).
#![tactic(auto)]

pub mod copy_tests;
pub mod kept_tracks;
pub mod turn;
