// The fewest and the most words of a heap.
pub const FEWEST_WORDS: usize = 2;

pub const MOST_WORDS: usize = 65536;
