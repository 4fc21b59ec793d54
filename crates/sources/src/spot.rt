ghost use Rattle.std.specs.Prelude.{◌≡◌, ◌<◌, ◌≤◌, length};
ghost use Rattle.std.specs.Result.{result_err};
ghost use Rattle.layouts.specs.Table.{due, template_refusal, entry_said, entry_refusal};

use crate::starts::Flagged;
use crate::words::{LAST_INDEX, MOST_WORDS, P_WORD, Z_WORD};
use layouts::entry::Entry;
use refusals::refusal::Refusal;

// A word under check, and how many entries are due there.
#[derive(Clone, Copy)]
pub(crate) struct Spot<'a> {
    pub(crate) words: &'a [u32],
    pub(crate) k: usize,
    pub(crate) left: u32,
    ghost short: { length words.now ≤ 32768 },
    ghost within: { k < length words.now },
    ghost counted: { left ≡ due words.now k },
}

impl<'a> Spot<'a> {
    // The refusal of the template that begins here, if one begins here and is refused.
    pub(crate) fn template_refusal(self) -> Result<(), Refusal>
        ensures { result_err result ≡ template_refusal self.entry.words.now self.entry.k }
    {
        let words = self.words;
        let index = self.k as u32;
        if self.left > 0 {
            return Ok(());
        }
        if words[self.k] > MOST_WORDS {
            return Err(Refusal::TemplateSize { index });
        }
        if self.k + 1 + words[self.k] as usize > words.len() {
            return Err(Refusal::TemplateEnd { index });
        }
        Ok(())
    }

    // What the word says as an entry: Z, P, a code, or a fault.
    fn entry(self, table: &Flagged<'_>) -> Result<Entry, Refusal>
        requires { table.now.words.now ≡ self.words.now }
        ensures { result ≡ entry_said self.entry.words.now self.entry.k }
    {
        let words = self.words;
        let index = self.k as u32;
        match words[self.k] {
            Z_WORD => Ok(Entry::Z),
            P_WORD if self.left >= 2 && self.k + 1 < words.len() && words[self.k + 1] == Z_WORD =>
                Ok(Entry::P),
            P_WORD => Err(Refusal::EntryPair { index }),
            code @ 1..=LAST_INDEX if table.has_entries(code) => Ok(Entry::Code(code)),
            1..=LAST_INDEX => Err(Refusal::EntryName { index }),
            _ => Err(Refusal::EntryNumber { index }),
        }
    }

    // The refusal of the entry here, if the word is an entry and is refused.
    pub(crate) fn entry_refusal(self, table: &Flagged<'_>) -> Result<(), Refusal>
        requires { table.now.words.now ≡ self.words.now }
        ensures { result_err result ≡ entry_refusal self.entry.words.now self.entry.k }
    {
        if self.left == 0 {
            return Ok(());
        }
        self.entry(table)?;
        Ok(())
    }
}
