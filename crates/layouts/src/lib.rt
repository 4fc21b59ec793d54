// Cell layouts: what a template source means, the laws that it keeps, and the meanings of the four sources with the proofs that
// each is lawful.
#![tactic(auto)]

pub mod entry;
pub mod place;
