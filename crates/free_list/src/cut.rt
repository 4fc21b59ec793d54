ghost use Rattle.std.specs.Prelude.{◌≡◌, ◌+◌, ◌-◌};
ghost use Rattle.free_list.specs.Free.{FirstFit};
ghost use Rattle.free_list.specs.Cells.{Cut, ListAfter};
ghost use Rattle.free_list.specs.Taken.{OneAnswer};

use crate::halves::Halves;
use crate::runs::Found;

// Cuts a cell of `n` words from the end of the run `found`, the first of `n` words or more. Answers its address.
pub(crate) fn cut(words: &mut [u32], found: Found, n: u32) -> u32
    requires { FirstFit words.old n found.link_at found.run found.size }
    ensures answer { result ≡ found.run + (found.size - n) }
    ensures words { Cut words.old found.link_at found.run found.size n words.new }
    ensures list { ListAfter words.old found.link_at found.run found.size n words.new }
    ensures once { OneAnswer }
{
    let link_at = found.link_at as usize;
    let run = found.run as usize;
    let left = found.size - n;
    let Halves { link, .. } = Halves::from(words[run]);
    if left == 0 {
        let before = Halves::from(words[link_at]);
        words[link_at] = Halves { link, ..before }.into();
    } else {
        words[run] = Halves { size: left, link }.into();
    }
    let cell = found.run + left;
    let at = cell as usize;
    words[at..at + n as usize].fill(0);
    cell
}
