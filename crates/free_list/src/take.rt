ghost use Rattle.free_list.specs.Taken.{Taken};

use crate::cut::cut;
use crate::fault::Fault;
use crate::first_fit::first_fit;
use refusals::limits::{FEWEST_WORDS, MOST_WORDS};

// Takes a cell of `n` words from the first run that is long enough, all its words 0. Answers its address.
pub fn take_cell(words: &mut [u32], n: u32) -> Result<Option<u32>, Fault>
    ensures { Taken words.old n words.new result }
{
    if !(FEWEST_WORDS..=MOST_WORDS).contains(&words.len()) {
        return Err(Fault::Length);
    }
    if n == 0 {
        return Err(Fault::Size);
    }
    let Some(found) = first_fit(words, n)? else {
        return Ok(None);
    };
    Ok(Some(cut(words, found, n)))
}
