ghost use Rattle.std.specs.Prelude.{◌≡◌, ◌≤◌, slice_set};
ghost use Rattle.cells.specs.declared.content.Content.TheVariants.{Cell};
ghost use Rattle.cells.specs.Words.{words_in};
ghost use Rattle.calls.specs.Holds.{holding};
ghost use Rattle.calls.specs.Calls.{Answers, make_due};

use crate::holds::Holds;
use cells::content::Content;
use refusals::refusal::Refusal;
use sources::source::TemplateSource;

// How many words a new cell of the type has, where the hold may get one.
pub fn size_for<S: TemplateSource>(
    holds: &Holds,
    source: &S,
    hold: u32,
    code: u32,
) -> Result<u32, Refusal>
    ensures { Answers (make_due (S.TemplateSource.meaning source.now) holds.now.records hold code) (Unit {0}) (λ n. (n ≡ words_in ((S.TemplateSource.meaning source.now).size code)) × (1 ≤ n)) result }
{
    holds.content(hold)?;
    match source.size(code) {
        None => Err(Refusal::NoType { code }),
        Some(0) => Err(Refusal::TypeSize { code }),
        Some(n) => Ok(n),
    }
}

// The hold gets the cell; above the last hold there is none to get it.
pub fn give_cell(holds: &mut Holds, hold: u32, code: u32, address: u32)
    ensures { holds.new.records ≡ slice_set holds.old.records hold (holding (Cell code address)) }
{
    holds.fill(hold, Content::Cell { code, address });
}
