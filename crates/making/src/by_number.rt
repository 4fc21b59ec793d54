ghost use Rattle.std.specs.Prelude.{length};
ghost use Rattle.making.specs.Makes.{Makes};

use crate::collector::Collector;
use calls::holds::Holds;
use calls::memory::check_pending;
use calls::new_cell::{give_cell, size_for};
use refusals::refusal::Refusal;
use scan::frame::Frame;
use scan::guard::Marks;
use sources::source::TemplateSource;

// The hold gets a new cell of the type, all its words 0. Answers the cell's address. What is lent may be of any length.
pub fn make<S: TemplateSource>(
    words: &mut [u32],
    marks: &mut [u8],
    pending: &mut [Frame],
    holds: &mut Holds,
    source: &S,
    hold: u32,
    code: u32,
) -> Result<u32, Refusal>
    ensures { Makes (S.TemplateSource.meaning source.now) words.old holds.old.records hold code (length pending.old) marks.old words.new holds.new.records marks.new result }
{
    check_pending(words.len(), marks.len(), pending.len())?;
    let guard = Marks::cleared(marks);
    let n = size_for(holds, source, hold, code)?;
    let mut collector = Collector {
        words,
        marks: guard.bytes,
        pending,
        holds,
        source,
    };
    let address = collector.find_cell(n)?;
    give_cell(holds, hold, code, address);
    Ok(address)
}
