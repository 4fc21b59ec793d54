ghost use Rattle.std.specs.Prelude.{◌≡◌, ◌+◌, ◌^◌, ◌<◌, length, MatchOption};
ghost use Rattle.lines.specs.Words.{Follows};

use crate::part::{Part, cut};

// The words that follow in a line, each after a space.
#[derive(Drop)]
pub(crate) struct Words<'a> {
    pub(crate) rest: Part<'a>,
    ghost follows: { Follows rest.text.now },
    ghost within: { rest.at + length rest.text.now < 2 ^ 64 },
}

impl<'a> Words<'a> {
    // The words of a text in which each stands after a space.
    pub(crate) fn of(text: &'a [u8]) -> Option<Words<'a>>
        ensures { MatchOption result (Follows text.now → ⊥) (λ w. w.rest.text.now ≡ text.now) }
    {
        match text {
            [] | [b' ', ..] => Some(Words {
                rest: Part { text, at: 0 },
            }),
            _ => None,
        }
    }
}

impl<'a> Iterator for Words<'a> {
    ghost use Rattle.std.specs.Prelude.{length};
    ghost use Rattle.std.specs.Iterator.{at_most};
    ghost use Rattle.lines.specs.Parts.{GivesWord};

    type Item = Part<'a>;

    ghost next_gives = { GivesWord };

    ghost remaining = { λ w. at_most (length w.rest.text.now) };

    fn next(&mut self) -> Option<Part<'a>> {
        let (_, text) = self.rest.text.split_first()?;
        let at = self.rest.at + 1;
        let (text, after) = cut(text);
        self.rest = Part {
            text: after,
            at: at + text.len(),
        };
        Some(Part { text, at })
    }
}
