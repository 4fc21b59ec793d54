// The heap over lent memory, as a type for its state, and holds as values that have to be given back.
#![tactic(auto)]

pub mod hold;
pub mod marked;
pub mod memory;
pub mod open;
pub mod tokens;
