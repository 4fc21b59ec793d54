// A cell whose words are being gone through, and the next of them.
#[derive(Clone, Copy, PartialEq, Eq, Debug)]
pub struct Frame {
    pub code: u32,
    pub address: u32,
    pub word: u32,
}

// What a word of a cell leads to. The three cases are those of the scan; a Result of an Option would only hide their names.
#[derive(Clone, Copy, PartialEq, Eq, Debug)]
pub enum Child {
    Nothing,
    Cell { code: u32, address: u32 },
    Misfit,
}
