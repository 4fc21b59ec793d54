// Lists of calls on a new heap: what is promised of every one of them, and a call that runs one.
#![tactic(auto)]

pub mod call;
mod one;
pub mod replay;
