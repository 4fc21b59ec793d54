// A line of the script, kept as it comes and read into a command.
#![tactic(auto)]

pub mod argument;
mod arguments;
pub mod buffer;
pub mod command;
pub mod number;
pub mod part;
mod words;
