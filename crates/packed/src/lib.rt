// Open, append, close, restart and the plans with an answer of one word.
#![tactic(auto)]

pub mod answers;
pub mod calls;
pub mod plans;
