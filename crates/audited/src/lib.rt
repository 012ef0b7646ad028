// The audit and the lookups with an answer of one word.
#![tactic(auto)]

pub mod auditing;
mod lengths;
pub mod looking;
