ghost use Rattle.std.specs.Prelude.{◌≡◌};
ghost use Rattle.cells.specs.Words.{code_word, value_word};

// What a hold, a pointer or a typed word may have.
#[derive(Clone, Copy, PartialEq, Eq, Debug, Default)]
pub enum Content {
    #[default]
    Nothing,
    Cell { code: u32, address: u32 },
    Immediate { code: u32, number: u32 },
}

impl Content {
    // The two words of a pointer to it: the code, and the address or the number.
    pub(crate) fn halves(self) -> (u32, u32)
        ensures code { result.0 ≡ code_word self }
        ensures value { result.1 ≡ value_word self }
    {
        match self {
            Content::Nothing => (0, 0),
            Content::Cell { code, address } => (code, address),
            Content::Immediate { code, number } => (code, number),
        }
    }
}
