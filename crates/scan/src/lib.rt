// The scan of a heap of cells whose layouts come at run time: it marks what a pointer reaches and shows each cell to an inspector,
// with its pending work in lent memory.
#![tactic(auto)]

pub mod frame;
pub mod guard;
pub mod inspector;
pub mod scanned;
pub mod walk;
