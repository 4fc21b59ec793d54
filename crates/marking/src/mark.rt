ghost use Rattle.std.specs.Prelude.{◌≡◌, ◌≤◌, length};
ghost use Rattle.marking.specs.Roots.{roots};
ghost use Rattle.marking.specs.Marking.{Scans, Marks as Marking};

use calls::holds::Holds;
use calls::memory::check_pending;
use calls::record::HoldRecord;
use cells::content::Content;
use refusals::refusal::Refusal;
use scan::frame::Frame;
use scan::guard::Marks;
use scan::inspector::Nobody;
use scan::walk::scan;
use sources::source::TemplateSource;

// Marks what each hold reaches in turn, until a scan is refused, and answers how many cells were marked. What it is lent comes in parts,
// as `scan` takes it.
fn scan_roots<S: TemplateSource>(
    words: &[u32],
    marks: &mut [u8],
    pending: &mut [Frame],
    records: &[HoldRecord],
    source: &S,
) -> Result<u32, Refusal>
    requires marks { length marks.old ≡ length words.now }
    requires places { length words.now ≤ length pending.old }
    requires long { length words.now ≤ 65536 }
    ensures { Scans (S.TemplateSource.meaning source.now) words.now (roots records.now) marks.old marks.new result }
{
    let mut visits = 0;
    for hold in records {
        let Content::Cell { code, address } = hold.root() else {
            continue;
        };
        let scanned = scan(words, marks, pending, source, &mut Nobody, code, address)?;
        scanned.ending?;
        visits += scanned.visits as u32;
    }
    Ok(visits)
}

// Marks each cell that a hold reaches, and answers how many they are. A refusal leaves no mark. What is lent may be of any length.
pub fn mark_holds<S: TemplateSource>(
    words: &[u32],
    marks: &mut [u8],
    pending: &mut [Frame],
    holds: &Holds,
    source: &S,
) -> Result<u32, Refusal>
    ensures { Marking (S.TemplateSource.meaning source.now) words.now holds.now.records (length pending.old) marks.old marks.new result }
{
    check_pending(words.len(), marks.len(), pending.len())?;
    let guard = Marks::cleared(marks);
    let visits = scan_roots(words, guard.bytes, pending, holds.records(), source)?;
    guard.keep();
    Ok(visits)
}
