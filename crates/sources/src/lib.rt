// Template sources: the trait, the table, the rule, and the two that stand on any source.
#![tactic(auto)]

pub mod check;
pub mod error;
pub mod lent;
pub mod mask;
pub mod over;
pub mod rule;
pub mod source;
mod spot;
pub mod starts;
pub mod table;
pub mod uses;
pub mod words;
