ghost use Rattle.std.specs.Prelude.{◌≡◌, ◌≤◌, length, drop};
ghost use Rattle.scan.specs.Marks.{unmarked};
ghost use Rattle.sweeping.specs.Sweeping.{Swept, Sweeps};
ghost use Rattle.sweeping.specs.Laws.{OneSweep, RoomLaw};

use crate::stretch::Stretch;
use calls::memory::check_memory;
use free_list::halves::Halves;
use refusals::refusal::Refusal;
use scan::guard::MARKED;

// Links the stretches, from the last word down, so that each run's link is known when its word is written. Answers how many words
// are unmarked.
fn link_stretches(words: &mut [u32], marks: &[u8]) -> u32
    requires some { 2 ≤ length words.old }
    requires long { length words.old ≤ 65536 }
    requires marks { length marks.now ≡ length words.old }
    ensures answer { result ≡ unmarked (drop 1 marks.now) }
    ensures words { Swept words.old marks.now words.new }
    ensures once { OneSweep }
    ensures room { RoomLaw }
{
    let mut stretch = Stretch { size: 0, next: 0 };
    let mut free = 0;
    for (at, mark) in marks.iter().enumerate().skip(1).rev() {
        if *mark == MARKED {
            stretch.close(words, at as u32 + 1);
        } else {
            stretch.size += 1;
            free += 1;
        }
    }
    stretch.close(words, 1);
    let first = Halves {
        link: stretch.next,
        ..Halves::from(words[0])
    };
    words[0] = first.into();
    free
}

// Makes every longest stretch of unmarked words a run of the free list, and the marks zero. Answers how many words are free.
pub fn sweep(words: &mut [u32], marks: &mut [u8]) -> Result<u32, Refusal>
    ensures { Sweeps words.old marks.old words.new marks.new result }
{
    check_memory(words.len(), marks.len())?;
    let free = link_stretches(words, marks);
    marks.fill(0);
    Ok(free)
}
