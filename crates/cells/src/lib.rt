// What the words of a cell say in any memory, and how a content is written into them.
#![tactic(auto)]

pub mod content;
pub mod words;
