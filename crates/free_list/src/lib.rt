// The free list, in the words themselves: its runs, the first that is long enough, and a cell cut from that one.
#![tactic(auto)]

mod cut;
pub mod fault;
mod first_fit;
pub mod halves;
mod runs;
pub mod take;
