// Holds, and the calls by hold number that read and write cells, over any words, hold table and source.
#![tactic(auto)]

pub mod by_number;
mod find;
pub mod holds;
pub mod memory;
pub mod new_cell;
pub mod record;
mod spot;
