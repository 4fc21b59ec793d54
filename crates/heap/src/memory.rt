ghost use Rattle.std.specs.Prelude.{length};
ghost use Rattle.heap.specs.Sizes.{HeapSize};

// Words and marks that a caller lends for a heap.
#[derive(Drop)]
pub struct Memory<'m> {
    pub words: &'m mut [u32],
    pub marks: &'m mut [u8],
}

// A heap whose cells are made, read and written. `Memory` may have any length, and this may not, so the two are not one type.
#[derive(Drop)]
pub struct Open<'m> {
    pub(crate) words: &'m mut [u32],
    pub(crate) marks: &'m mut [u8],
    pub ghost sized: { HeapSize (length words.now) (length marks.now) },
}

// A heap whose reached cells are marked. Only `Open::mark` gives one. It shares no method with `Open`, so the two are not one type.
#[derive(Drop)]
pub struct Marked<'m> {
    pub(crate) words: &'m mut [u32],
    pub(crate) marks: &'m mut [u8],
    pub ghost sized: { HeapSize (length words.now) (length marks.now) },
}
