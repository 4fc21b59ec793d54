// A session of the script: it obeys a line, and answers it.
#![tactic(auto)]

mod reply;
pub mod session;
mod store;
