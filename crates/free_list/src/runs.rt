ghost use Rattle.std.specs.Prelude.{◌≡◌, ℕ, ◌<◌, ◌≤◌, slice_index, IfSome, MatchOption};
ghost use Rattle.free_list.specs.Free.{link_of, Next, BrokenLink};

use crate::halves::Halves;

// A run of free words: the word that holds the link to it, its address, and how many words it has.
#[derive(Clone, Copy, PartialEq, Eq, Debug)]
pub(crate) struct Found {
    pub(crate) link_at: u32,
    pub(crate) run: u32,
    pub(crate) size: u32,
}

// The word that holds a broken link.
#[derive(Clone, Copy, PartialEq, Eq, Debug)]
pub(crate) struct Break {
    pub(crate) at: u32,
}

// How many words the run at `run` has, if a link behind a run that ends at `end` may lead there.
fn size_at(words: &[u32], run: u32, end: u32) -> Option<u32>
    requires { 1 ≤ run }
    ensures half { IfSome result (λ s. s < 65536) }
    ensures leads { (p : ℕ) → link_of (slice_index words.now p) ≡ run → MatchOption result (BrokenLink words.now p end) (λ s. Next words.now p end run s) }
{
    if run < end {
        return None;
    }
    let size = Halves::from(*words.get(run as usize)?).size;
    if size == 0 || size as usize > words.len() - run as usize {
        return None;
    }
    Some(size)
}

// A walk along the free list, at the link in word `link_at`, where the run before it ends at `end`.
#[derive(Drop)]
pub(crate) struct Runs<'a> {
    pub(crate) words: &'a [u32],
    pub(crate) link_at: u32,
    pub(crate) end: u32,
    ghost rises: { link_at < end },
}

impl<'a> Runs<'a> {
    pub(crate) fn new(words: &'a [u32]) -> Runs<'a>
        ensures words { result.words.now ≡ words.now }
        ensures link_at { result.link_at ≡ 0 }
        ensures end { result.end ≡ 1 }
    {
        Runs {
            words,
            link_at: 0,
            end: 1,
        }
    }
}

// Each run in turn; or, and then nothing more, the word that holds a broken link.
impl<'a> Iterator for Runs<'a> {
    ghost use Rattle.free_list.specs.Walks.{words_ahead, GivesRun};

    type Item = Result<Found, Break>;

    ghost next_gives = { GivesRun };

    ghost remaining = { words_ahead };

    fn next(&mut self) -> Option<Result<Found, Break>> {
        let link_at = self.link_at;
        let run = Halves::from(*self.words.get(link_at as usize)?).link;
        if run == 0 {
            return None;
        }
        let Some(size) = size_at(self.words, run, self.end) else {
            self.words = &[];
            return Some(Err(Break { at: link_at }));
        };
        self.link_at = run;
        self.end = run + size;
        Some(Ok(Found { link_at, run, size }))
    }
}
