ghost use Rattle.std.specs.Prelude.{length};
ghost use Rattle.tracing.specs.Traces.{Traces};

use calls::by_number::cell_of;
use calls::holds::Holds;
use calls::memory::check_pending;
use refusals::refusal::Refusal;
use scan::frame::Frame;
use scan::guard::Marks;
use scan::inspector::Inspector;
use scan::walk::scan;
use sources::source::TemplateSource;

// Shows each cell that the hold reaches to the inspector, children first, and answers how many they are. What is lent may be of any
// length.
pub fn trace<S: TemplateSource, I: Inspector>(
    words: &[u32],
    marks: &mut [u8],
    pending: &mut [Frame],
    holds: &Holds,
    source: &S,
    inspector: &mut I,
    hold: u32,
) -> Result<u32, Refusal>
    ensures { Traces (S.TemplateSource.meaning source.now) words.now I.Inspector.step holds.now.records hold (length pending.old) marks.old inspector.old marks.new inspector.new result }
{
    check_pending(words.len(), marks.len(), pending.len())?;
    let guard = Marks::cleared(marks);
    let (code, address) = cell_of(words.len(), holds, source, hold)?;
    let scanned = scan(
        words,
        guard.bytes,
        pending,
        source,
        inspector,
        code,
        address,
    )?;
    scanned.ending?;
    Ok(scanned.visits as u32)
}
