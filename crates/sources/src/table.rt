ghost use Rattle.std.specs.Prelude.{◌≡◌, ◌+◌, ◌&&◌, nat_le, cond, Some, None, map, IfOk, MatchResult, slice_index};
ghost use Rattle.std.specs.List.{zip};
ghost use Rattle.layouts.specs.Table.{Accepted, begins, entry_of, table};
ghost use Rattle.layouts.specs.Statements.{MeansTemplates};
ghost use Rattle.layouts.proofs.TableLaws.{table_lawful};
ghost use Rattle.sources.specs.Slots.{slot_of, words_in, SlotsFlagged};
ghost use Rattle.sources.specs.Errors.{NoTable};

use crate::check::{checked, is_bad_start};
use crate::error::Failure;
use crate::source::TemplateSource;
use crate::starts::Flagged;
use crate::words::{P_WORD, TABLE_WORDS, Z_WORD};
use layouts::entry::Entry;
use refusals::refusal::Refusal;
use std::alloc::{AllocError, Global};

// A word of an accepted table, and whether a template begins there.
#[derive(Clone, Copy)]
struct Slot {
    word: u32,
    begins: bool,
}

// An accepted table, which answers a question in constant time.
#[derive(Drop)]
pub struct Table {
    slots: Vec<Slot>,
    ghost accepted: { Accepted (words_in slots.items) },
    ghost flagged: { SlotsFlagged slots.items },
}

impl TemplateSource for Table {
    ghost meaning = { λ t. table (words_in t.slots.items) };

    ghost laws = { λ t. table_lawful (words_in t.slots.items) t.accepted };

    fn size(&self, code: u32) -> Option<u32> {
        self.entries_at(code)
    }

    fn entry(&self, code: u32, word: u32) -> Entry {
        match self.word_at(code, word) {
            Some(stored) => entry_from(stored),
            None => Entry::Z,
        }
    }
}

// The entry that a word of a table stands for. It is no `From`, which would have to stand in `layouts`, whose code has no words of a table.
fn entry_from(word: u32) -> Entry
    ensures { result ≡ entry_of word }
{
    match word {
        Z_WORD => Entry::Z,
        P_WORD => Entry::P,
        code => Entry::Code(code),
    }
}

// Whether a cell of so many words has a word of this number.
fn has_word(n: u32, word: u32) -> bool
    ensures { result ≡ (nat_le 1 word && nat_le word n) }
{
    (1..=n).contains(&word)
}

// The words with their flags beside them.
fn slots(heap: Global, flagged: &Flagged<'_>) -> Result<Vec<Slot>, AllocError>
    ensures { IfOk result (λ v. v.items ≡ map slot_of (zip flagged.now.words.now flagged.now.starts.now)) }
{
    flagged
        .words
        .iter()
        .zip(flagged.starts)
        .map(|(word, begins)| Slot {
            word: *word,
            begins: *begins,
        })
        .collect(heap)
}

// The table of words that are accepted.
fn copied(heap: Global, flagged: &Flagged<'_>) -> Result<Table, AllocError>
    requires { Accepted flagged.now.words.now }
    ensures { IfOk result (λ t. words_in t.slots.items ≡ flagged.now.words.now) }
{
    let slots = slots(heap, flagged)?;
    Ok(Table { slots })
}

impl Table {
    ghost use Rattle.sources.specs.Words.{words_of};

    // The table that the words are, or why there is none.
    pub fn new(heap: Global, words: &[u32]) -> Result<Table, Failure>
        ensures { MatchResult result (λ t. (words_of t ≡ words.now) × MeansTemplates words.now (table (words_of t))) (λ e. NoTable words.now e) }
    {
        if is_bad_start(words) {
            return Err(Refusal::TableStart.into());
        }
        let mut starts = [false; TABLE_WORDS];
        let flagged = checked(words, &mut starts)?;
        Ok(copied(heap, &flagged)?)
    }

    // The number of entries of the template that begins at an index, if one does.
    fn entries_at(&self, index: u32) -> Option<u32>
        ensures { result ≡ cond (begins (words_of self.now) index) (Some (slice_index (words_of self.now) index)) None }
    {
        match self.slots.get(index as usize) {
            Some(Slot { word, begins: true }) => Some(*word),
            _ => None,
        }
    }

    // The word of the table that stands for a word of the type, if it is one.
    fn word_at(&self, code: u32, word: u32) -> Option<u32>
        ensures { result ≡ cond (begins (words_of self.now) code && (nat_le 1 word && nat_le word (slice_index (words_of self.now) code))) (Some (slice_index (words_of self.now) (code + word))) None }
    {
        let n = self.entries_at(code)?;
        if has_word(n, word) {
            Some(self.slots[code as usize + word as usize].word)
        } else {
            None
        }
    }
}
