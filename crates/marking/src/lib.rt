// Marking from all holds.
#![tactic(auto)]

pub mod mark;
