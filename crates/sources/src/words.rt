// The numbers of the template rule, each once.

// Z as a word of a table: the word of the cell is no address.
pub const Z_WORD: u32 = 65537;

// P as a word of a table: a pointer begins at the word of the cell.
pub const P_WORD: u32 = 65536;

// The last number that is a type-code.
pub const LAST_CODE: u32 = 65535;

// The first type-code of the rule.
pub const RULE_FIRST: u32 = 32768;

// The last number that an entry of a table may name.
pub const LAST_INDEX: u32 = 32767;

// The most words that a cell has.
pub const MOST_WORDS: u32 = 255;

// The most words that a table has.
pub const TABLE_WORDS: usize = 32768;

// The most places that a mask has.
pub const MASK_PLACES: usize = 32;
