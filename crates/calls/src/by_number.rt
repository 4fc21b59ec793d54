ghost use Rattle.std.specs.Prelude.{◌≡◌, true};
ghost use Rattle.cells.specs.declared.content.Content.TheVariants.{Cell};
ghost use Rattle.cells.specs.Words.{fits};
ghost use Rattle.calls.specs.Calls.{Answers, Takes, Releases, Notes, Copies, Tells, Looks, Sets, Puts, Fetches, cell_due};
ghost use Rattle.calls.specs.Holds.{at, holding};

use crate::find::{View, accepts, is_reference};
use crate::holds::{Holds, check_number};
use cells::content::Content;
use cells::words::{read_content, write_content};
use refusals::refusal::Refusal;
use sources::source::TemplateSource;

// Words, holds and source are lent one by one: some calls write the words, some the holds, and some want no source.

// The hold becomes held, with nothing.
pub fn take(holds: &mut Holds, hold: u32) -> Result<(), Refusal>
    ensures { Takes holds.old.records hold holds.new.records result }
{
    check_number(hold)?;
    holds.records[hold as usize].set_held(true, hold)
}

// The hold is held no more.
pub fn release(holds: &mut Holds, hold: u32) -> Result<(), Refusal>
    ensures { Releases holds.old.records hold holds.new.records result }
{
    check_number(hold)?;
    holds.records[hold as usize].set_held(false, hold)
}

// What the hold has.
pub fn tell(holds: &Holds, hold: u32) -> Result<Content, Refusal>
    ensures { Tells holds.now.records hold result }
{
    holds.content(hold)
}

// The hold gets an immediate of a type that has no cells.
pub fn note<S: TemplateSource>(
    holds: &mut Holds,
    source: &S,
    hold: u32,
    code: u32,
    number: u32,
) -> Result<(), Refusal>
    ensures { Notes (S.TemplateSource.meaning source.now) holds.old.records hold code number holds.new.records result }
{
    holds.content(hold)?;
    match source.size(code) {
        None => Err(Refusal::NoType { code }),
        Some(0) => {
            holds.fill(hold, Content::Immediate { code, number });
            Ok(())
        }
        Some(_) => Err(Refusal::TypeSize { code }),
    }
}

// The second hold gets what the first has.
pub fn copy(holds: &mut Holds, from: u32, to: u32) -> Result<(), Refusal>
    ensures { Copies holds.old.records «from» to holds.new.records result }
{
    let (content, _) = holds.contents(from, to)?;
    holds.fill(to, content);
    Ok(())
}

// The code and the address of the hold's cell, which fits a heap of so many words.
pub fn cell_of<S: TemplateSource>(
    length: usize,
    holds: &Holds,
    source: &S,
    hold: u32,
) -> Result<(u32, u32), Refusal>
    ensures { Answers (cell_due (S.TemplateSource.meaning source.now) length holds.now.records hold) (Unit {0}) (λ p. (at holds.now.records hold ≡ holding (Cell p.0 p.1)) × (fits (S.TemplateSource.meaning source.now) length p.0 p.1 ≡ true)) result }
{
    View::new(length, holds, source).cell(hold)
}

// The number in a plain word of the hold's cell.
pub fn look<S: TemplateSource>(
    words: &[u32],
    holds: &Holds,
    source: &S,
    hold: u32,
    word: u32,
) -> Result<u32, Refusal>
    ensures { Looks (S.TemplateSource.meaning source.now) words.now holds.now.records hold word result }
{
    let at = View::new(words.len(), holds, source).plain_word(hold, word)?;
    Ok(words[at])
}

// A plain word of the hold's cell gets a number.
pub fn set<S: TemplateSource>(
    words: &mut [u32],
    holds: &Holds,
    source: &S,
    hold: u32,
    word: u32,
    number: u32,
) -> Result<(), Refusal>
    ensures { Sets (S.TemplateSource.meaning source.now) words.old holds.now.records hold word number words.new result }
{
    let at = View::new(words.len(), holds, source).plain_word(hold, word)?;
    words[at] = number;
    Ok(())
}

// A pointer or typed word of the first hold's cell gets what the second hold has.
pub fn put<S: TemplateSource>(
    words: &mut [u32],
    holds: &Holds,
    source: &S,
    hold: u32,
    word: u32,
    from: u32,
) -> Result<(), Refusal>
    ensures { Puts (S.TemplateSource.meaning source.now) words.old holds.now.records hold word «from» words.new result }
{
    let (spot, content) = View::new(words.len(), holds, source).word_and_content(hold, word, from)?;
    if !accepts(spot.class, content) {
        return Err(Refusal::WordClass { word });
    }
    write_content(words, spot.at, spot.class, content);
    Ok(())
}

// The second hold gets what a pointer or typed word of the first hold's cell says.
pub fn fetch<S: TemplateSource>(
    words: &[u32],
    holds: &mut Holds,
    source: &S,
    hold: u32,
    word: u32,
    to: u32,
) -> Result<(), Refusal>
    ensures { Fetches (S.TemplateSource.meaning source.now) words.now holds.old.records hold word to holds.new.records result }
{
    let (spot, _) = View::new(words.len(), holds, source).word_and_content(hold, word, to)?;
    if !is_reference(spot.class) {
        return Err(Refusal::WordClass { word });
    }
    let said = read_content(words, source, spot.at, spot.class);
    let content = said.ok_or(Refusal::Broken { address: spot.at })?;
    holds.fill(to, content);
    Ok(())
}
