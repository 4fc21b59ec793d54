// The trace of what one hold reaches, shown to an inspector.
#![tactic(auto)]

pub mod by_number;
