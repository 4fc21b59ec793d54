ghost use Rattle.std.specs.Prelude.{◌≡◌, ℕ, MatchOption};
ghost use Rattle.lines.specs.Numbers.{Writes};

use crate::number::number;
use crate::part::Part;

// A number of a command: the part of the line that writes it, and its value.
#[derive(Clone, Copy, PartialEq, Eq, Debug)]
pub struct Argument<'a> {
    pub part: Part<'a>,
    pub value: u32,
    pub ghost writes: { Writes part.text.now value },
}

impl<'a> Argument<'a> {
    pub(crate) fn read(part: Part<'a>) -> Option<Argument<'a>>
        ensures { MatchOption result ((n : ℕ) → Writes part.entry.text.now n → ⊥) (λ a. a.part ≡ part.entry) }
    {
        let value = number(part.text)?;
        Some(Argument { part, value })
    }
}
