// That search, choice and placing in code are those of the definition of filling: laws in proofs/ alone.
#![tactic(auto)]

pub mod fill_laws;
pub mod step_promises;
