ghost use Rattle.std.specs.Prelude.{◌≡◌, length, drop, replicate};
ghost use Rattle.scan.specs.Marks.{unmarked};
ghost use Rattle.heap.specs.Memory.{Left};
ghost use Rattle.heap.specs.States.{MarksHeap, SweepsHeap};

use crate::memory::{Marked, Open};
use calls::holds::Holds;
use marking::mark::mark_holds;
use refusals::refusal::Refusal;
use scan::frame::Frame;
use sources::source::TemplateSource;
use sweeping::survey::survey;
use sweeping::sweep::sweep;

impl<'m> Open<'m> {
    // Marks each cell that a hold reaches, and answers how many they are.
    pub fn mark<S: TemplateSource>(
        self,
        holds: &Holds,
        source: &S,
        pending: &mut [Frame],
    ) -> Result<(Marked<'m>, u32), (Open<'m>, Refusal)>
        ensures { MarksHeap (S.TemplateSource.meaning source.now) holds.now.records (length pending.old) self.entry result }
    {
        let Open { words, marks } = self;
        match mark_holds(words, marks, pending, holds, source) {
            Ok(visits) => Ok((Marked { words, marks }, visits)),
            Err(refusal) => Err((Open { words, marks }, refusal)),
        }
    }
}

impl<'m> Marked<'m> {
    // How many words a sweep would free.
    pub fn survey(&self) -> u32
        ensures { result ≡ unmarked (drop 1 self.now.marks.now) }
    {
        survey(self.words.len(), self.marks).unwrap()
    }

    // The open heap again, with no mark and with nothing freed.
    pub fn unmark(self) -> Open<'m>
        ensures { (Left self.entry.words result.words self.entry.words.now) × (Left self.entry.marks result.marks (replicate (length self.entry.marks.now) 0)) }
    {
        let Marked { words, marks } = self;
        marks.fill(0);
        Open { words, marks }
    }

    // Frees every unmarked word, and answers how many they are.
    pub fn sweep(self) -> (Open<'m>, u32)
        ensures { SweepsHeap self.entry result }
    {
        let Marked { words, marks } = self;
        let freed = sweep(words, marks).unwrap();
        (Open { words, marks }, freed)
    }
}
