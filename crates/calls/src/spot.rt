use layouts::entry::Class;

// Where a word of a cell stands in the heap, and its class.
#[derive(Clone, Copy)]
pub(crate) struct Spot {
    pub(crate) at: usize,
    pub(crate) class: Class,
}
