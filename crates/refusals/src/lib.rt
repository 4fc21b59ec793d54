// Every refusal that the library and the script program give: its number, its layer and its place.
#![tactic(auto)]

pub mod limits;
pub mod refusal;
pub mod table;
