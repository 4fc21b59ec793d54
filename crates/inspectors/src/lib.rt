// Inspectors for a scan: a count of cells and words by type, and a listing of the cells.
#![tactic(auto)]

pub mod lister;
pub mod tally;
