// Judging a rule on a recording.
#![tactic(auto)]

pub mod column;
pub mod fault;
pub mod judge;
pub mod truths;
pub mod turn;
