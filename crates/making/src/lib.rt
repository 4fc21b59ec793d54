// Making a cell: first fit, and a collection where no run has room.
#![tactic(auto)]

pub mod by_number;
mod collector;
