ghost use Rattle.std.specs.Prelude.{◌≡◌, ℕ, ◌<◌, true};
ghost use Rattle.layouts.specs.Classes.{class_of};
ghost use Rattle.cells.specs.declared.content.Content.TheVariants.{Cell};
ghost use Rattle.cells.specs.Words.{fits, place, value_word};
ghost use Rattle.calls.specs.Holds.{at, holding, has, code_of};
ghost use Rattle.calls.specs.Known.{Known};
ghost use Rattle.calls.specs.Rows.{reference, takes};
ghost use Rattle.calls.specs.Calls.{Answers, cell_in_due, word_due, cell_due, plain_due, pair_due, place_at};

use crate::holds::Holds;
use crate::spot::Spot;
use cells::content::Content;
use cells::words::{does_fit, words_of};
use layouts::entry::Class;
use refusals::refusal::Refusal;
use sources::source::TemplateSource;
use sources::uses::class;

// What a call reads to find a word: how many words the heap has, the holds, and the types.
#[derive(Drop)]
pub(crate) struct View<'a, S> {
    length: usize,
    holds: &'a Holds,
    source: &'a S,
}

impl<'a, S: TemplateSource> View<'a, S> {
    pub(crate) fn new(length: usize, holds: &'a Holds, source: &'a S) -> Self
        ensures length { result.length ≡ length }
        ensures holds { result.holds.now ≡ holds.now }
        ensures source { result.source.now ≡ source.now }
    {
        View {
            length,
            holds,
            source,
        }
    }

    // The code and the address of the cell that the content is of, which fits.
    fn cell_in(&self, content: Content, hold: u32) -> Result<(u32, u32), Refusal>
        ensures { Answers (cell_in_due (S.TemplateSource.meaning self.now.source.now) self.now.length content hold) (Unit {0}) (λ p. (content ≡ Cell p.0 p.1) × (fits (S.TemplateSource.meaning self.now.source.now) self.now.length p.0 p.1 ≡ true)) result }
    {
        let Content::Cell { code, address } = content else {
            return Err(Refusal::NoCell { hold });
        };
        if !does_fit(self.source, self.length, code, address) {
            return Err(Refusal::UnfitCell { hold });
        }
        Ok((code, address))
    }

    // The word of the cell that the content is of.
    fn word_in(&self, content: Content, hold: u32, word: u32) -> Result<Spot, Refusal>
        ensures { Answers (word_due (S.TemplateSource.meaning self.now.source.now) self.now.length content hold word) (Unit {0}) (λ s. (s.at ≡ place (value_word content) word) × (s.class ≡ class_of (S.TemplateSource.meaning self.now.source.now) (code_of (has content)) word) × (s.at < self.now.length)) result }
    {
        let (code, address) = self.cell_in(content, hold)?;
        if !(1..=words_of(self.source, code)).contains(&word) {
            return Err(Refusal::NoWord { word });
        }
        Ok(Spot {
            at: address as usize + (word as usize - 1),
            class: class(self.source, code, word),
        })
    }

    // The code and the address of the hold's cell, which fits.
    pub(crate) fn cell(&self, hold: u32) -> Result<(u32, u32), Refusal>
        ensures { Answers (cell_due (S.TemplateSource.meaning self.now.source.now) self.now.length self.now.holds.now.records hold) (Unit {0}) (λ p. (at self.now.holds.now.records hold ≡ holding (Cell p.0 p.1)) × (fits (S.TemplateSource.meaning self.now.source.now) self.now.length p.0 p.1 ≡ true)) result }
    {
        let content = self.holds.content(hold)?;
        self.cell_in(content, hold)
    }

    // Where the plain word of the hold's cell stands.
    pub(crate) fn plain_word(&self, hold: u32, word: u32) -> Result<usize, Refusal>
        ensures { Answers (plain_due (S.TemplateSource.meaning self.now.source.now) self.now.length self.now.holds.now.records hold word) (Unit {0}) (λ p. (p ≡ place_at self.now.holds.now.records hold word) × (p < self.now.length)) result }
    {
        let content = self.holds.content(hold)?;
        let spot = self.word_in(content, hold, word)?;
        match spot.class {
            Class::Plain => Ok(spot.at),
            _ => Err(Refusal::WordClass { word }),
        }
    }

    // The word of the first hold's cell, and what the second hold has.
    pub(crate) fn word_and_content(
        &self,
        hold: u32,
        word: u32,
        other: u32,
    ) -> Result<(Spot, Content), Refusal>
        ensures { Answers (pair_due (S.TemplateSource.meaning self.now.source.now) self.now.length self.now.holds.now.records hold word other) (Unit {0}) (λ p. Known (S.TemplateSource.meaning self.now.source.now) self.now.holds.now.records hold word p.0 × (at self.now.holds.now.records other ≡ holding p.1)) result }
    {
        let (cell, content) = self.holds.contents(hold, other)?;
        let spot = self.word_in(cell, hold, word)?;
        Ok((spot, content))
    }
}

pub(crate) fn is_reference(class: Class) -> bool
    ensures { result ≡ reference class }
{
    matches!(class, Class::Pointer | Class::Typed(_))
}

// Whether a word of the class takes the content.
pub(crate) fn accepts(class: Class, content: Content) -> bool
    ensures { result ≡ takes (has content) class }
{
    match (class, content) {
        (Class::Pointer, _) | (Class::Typed(_), Content::Nothing) => true,
        (Class::Typed(of), Content::Cell { code, .. }) => code == of,
        _ => false,
    }
}
