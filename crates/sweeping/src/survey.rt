ghost use Rattle.std.specs.Prelude.{◌≡◌, ◌≤◌, length, drop};
ghost use Rattle.scan.specs.Marks.{unmarked};
ghost use Rattle.sweeping.specs.Sweeping.{Surveys};

use calls::memory::check_memory;
use refusals::refusal::Refusal;
use scan::guard::MARKED;

// How many words from word 1 on are unmarked.
fn count_unmarked(marks: &[u8]) -> usize
    ensures count { result ≡ unmarked (drop 1 marks.now) }
    ensures few { result ≤ length marks.now }
{
    let after = marks.get(1..).unwrap_or_default();
    let mut free = 0;
    for mark in after {
        if *mark != MARKED {
            free += 1;
        }
    }
    free
}

// How many words a sweep of `length` words would free. Nothing changes.
pub fn survey(length: usize, marks: &[u8]) -> Result<u32, Refusal>
    ensures { Surveys length marks.now result }
{
    check_memory(length, marks.len())?;
    Ok(count_unmarked(marks) as u32)
}
