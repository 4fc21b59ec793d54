ghost use Rattle.std.specs.Prelude.{◌≡◌, ◌-◌, ◌≤◌, ◌&&◌, length, if◌then◌else◌, nat_eq, nat_le, slice_index};
ghost use Rattle.layouts.specs.Table.{begins};
ghost use Rattle.sources.specs.Flags.{Flags};

use crate::words::TABLE_WORDS;

// How many entries are due after a word, where `left` were due at it.
pub(crate) fn next_due(left: u32, word: u32) -> u32
    ensures { result ≡ (if nat_eq left 0 then word else left - 1) }
{
    if left == 0 { word } else { left - 1 }
}

// Words that are few enough for a table, with a flag for each that says whether a template begins there.
// The check takes no memory, so the flags lie in an array of the largest size, which is lent; they are written by index, since of
// what is written through a `zip` with an `iter_mut` a proof knows no element.
#[derive(Clone, Copy)]
pub(crate) struct Flagged<'a> {
    pub(crate) words: &'a [u32],
    pub(crate) starts: &'a [bool],
    ghost short: { length words.now ≤ 32768 },
    ghost long: { length words.now ≤ length starts.now },
    ghost flagged: { Flags words.now starts.now },
}

impl<'a> Flagged<'a> {
    pub(crate) fn new(words: &'a [u32], starts: &'a mut [bool; TABLE_WORDS]) -> Flagged<'a>
        requires { length words.now ≤ 32768 }
        ensures { result.words.now ≡ words.now }
    {
        let mut left = 0;
        for (k, word) in words.iter().enumerate() {
            starts[k] = k >= 1 && left == 0;
            left = next_due(left, *word);
        }
        Flagged { words, starts }
    }

    // Whether a template with entries begins at an index.
    pub(crate) fn has_entries(&self, index: u32) -> bool
        ensures { result ≡ (begins self.now.words.now index && nat_le 1 (slice_index self.now.words.now index)) }
    {
        let at = index as usize;
        at < self.words.len() && self.starts[at] && self.words[at] >= 1
    }
}
