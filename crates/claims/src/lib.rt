// What the planner promises, each with its whole statement: proofs/Claims.antt. Words in specs/, laws in proofs/.
#![tactic(auto)]

pub mod plan_promises;
