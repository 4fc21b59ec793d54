ghost use Rattle.std.specs.Prelude.{◌≡◌};
ghost use Rattle.refusals.specs.Table.{number_of, layer_of, place_of};

use crate::refusal::{Layer, Refusal};

impl Refusal {
    pub fn number(&self) -> u32
        ensures { result ≡ number_of self.now }
    {
        match self {
            Refusal::MemorySize => 1,
            Refusal::HoldNumber { .. } => 2,
            Refusal::HoldState { .. } => 3,
            Refusal::NoType { .. } => 4,
            Refusal::TypeSize { .. } => 5,
            Refusal::NoCell { .. } => 6,
            Refusal::UnfitCell { .. } => 7,
            Refusal::NoWord { .. } => 8,
            Refusal::WordClass { .. } => 9,
            Refusal::Broken { .. } => 10,
            Refusal::NoRun { .. } => 11,
            Refusal::InspectorFull { .. } => 12,
            Refusal::TableStart => 21,
            Refusal::TemplateSize { .. } => 22,
            Refusal::TemplateEnd { .. } => 23,
            Refusal::EntryNumber { .. } => 24,
            Refusal::EntryPair { .. } => 25,
            Refusal::EntryName { .. } => 26,
            Refusal::MaskFull => 27,
            Refusal::NotALine { .. } => 30,
        }
    }

    pub fn layer(&self) -> Layer
        ensures { result ≡ layer_of self.now }
    {
        match self {
            Refusal::HoldNumber { .. } | Refusal::HoldState { .. } => Layer::Hold,
            Refusal::MemorySize
            | Refusal::NoType { .. }
            | Refusal::TypeSize { .. }
            | Refusal::NoCell { .. }
            | Refusal::UnfitCell { .. }
            | Refusal::NoWord { .. }
            | Refusal::WordClass { .. }
            | Refusal::Broken { .. }
            | Refusal::NoRun { .. } => Layer::Heap,
            Refusal::InspectorFull { .. } => Layer::Inspector,
            Refusal::TableStart
            | Refusal::TemplateSize { .. }
            | Refusal::TemplateEnd { .. }
            | Refusal::EntryNumber { .. }
            | Refusal::EntryPair { .. }
            | Refusal::EntryName { .. }
            | Refusal::MaskFull => Layer::Source,
            Refusal::NotALine { .. } => Layer::Script,
        }
    }

    pub fn place(&self) -> u64
        ensures { result ≡ place_of self.now }
    {
        match *self {
            Refusal::MemorySize | Refusal::TableStart => 0,
            Refusal::MaskFull => 32,
            Refusal::NotALine { line } => line,
            Refusal::HoldNumber { hold } | Refusal::HoldState { hold } => u64::from(hold),
            Refusal::NoCell { hold } | Refusal::UnfitCell { hold } => u64::from(hold),
            Refusal::NoType { code } | Refusal::TypeSize { code } => u64::from(code),
            Refusal::NoWord { word } | Refusal::WordClass { word } => u64::from(word),
            Refusal::Broken { address } => address as u64,
            Refusal::InspectorFull { address } => u64::from(address),
            Refusal::NoRun { size } => u64::from(size),
            Refusal::TemplateSize { index } | Refusal::TemplateEnd { index } => u64::from(index),
            Refusal::EntryNumber { index } | Refusal::EntryPair { index } => u64::from(index),
            Refusal::EntryName { index } => u64::from(index),
        }
    }
}
