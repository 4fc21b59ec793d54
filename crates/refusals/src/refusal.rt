// Which part of the library refused.
#[derive(Clone, Copy, PartialEq, Eq, Debug)]
pub enum Layer {
    Hold,
    Heap,
    Inspector,
    Source,
    Script,
}

// A refusal with its place. docs/RULES.md has the condition and an example of each.
#[derive(Clone, Copy, PartialEq, Eq, Debug)]
pub enum Refusal {
    MemorySize,
    HoldNumber { hold: u32 },
    HoldState { hold: u32 },
    NoType { code: u32 },
    TypeSize { code: u32 },
    NoCell { hold: u32 },
    UnfitCell { hold: u32 },
    NoWord { word: u32 },
    WordClass { word: u32 },
    Broken { address: usize },
    NoRun { size: u32 },
    InspectorFull { address: u32 },
    TableStart,
    TemplateSize { index: u32 },
    TemplateEnd { index: u32 },
    EntryNumber { index: u32 },
    EntryPair { index: u32 },
    EntryName { index: u32 },
    MaskFull,
    NotALine { line: u64 },
}
