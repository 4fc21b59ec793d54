// What a template says of one word of a cell, by the letters of the memo: Z, no address; P, the first word of a pointer; or the
// type-code of the cell whose address the word holds.
#[derive(Clone, Copy, PartialEq, Eq, Debug)]
pub enum Entry {
    Z,
    P,
    Code(u32),
}

// How a word of a cell may be used.
#[derive(Clone, Copy, PartialEq, Eq, Debug)]
pub enum Class {
    Plain,
    Pointer,
    Typed(u32),
    SecondHalf,
}
