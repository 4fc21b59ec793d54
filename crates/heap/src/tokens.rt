ghost use Rattle.std.specs.Prelude.{length};
ghost use Rattle.calls.specs.Calls.{Notes, Copies, Tells, Looks, Sets, Puts, Fetches};
ghost use Rattle.heap.specs.Memory.{Same, Left};
ghost use Rattle.heap.specs.Tokens.{Gives, Spends};
ghost use Rattle.making.specs.Makes.{Makes};
ghost use Rattle.tracing.specs.Traces.{Traces};

use crate::hold::Hold;
use crate::memory::Open;
use calls::by_number;
use calls::holds::Holds;
use cells::content::Content;
use making::by_number::make;
use refusals::refusal::Refusal;
use scan::frame::Frame;
use scan::inspector::Inspector;
use sources::source::TemplateSource;
use tracing::by_number::trace;

// The calls of an open heap, by hold. Each is the call by hold number of the same name.
// Holds and source are not one parameter: some calls write the holds, some read them, and some want no source.
impl<'m> Open<'m> {
    pub fn take(&self, holds: &mut Holds, number: u32) -> Result<Hold, Refusal>
        ensures { Gives holds.old.records number holds.new.records result }
    {
        by_number::take(holds, number)?;
        Ok(Hold { number })
    }

    pub fn release(&self, holds: &mut Holds, hold: Hold) -> Result<(), (Hold, Refusal)>
        ensures { Spends holds.old.records hold holds.new.records result }
    {
        if let Err(refusal) = by_number::release(holds, hold.number) {
            return Err((hold, refusal));
        }
        let Hold { number: _ } = hold;
        Ok(())
    }

    pub fn note<S: TemplateSource>(
        &self,
        holds: &mut Holds,
        source: &S,
        hold: &Hold,
        code: u32,
        number: u32,
    ) -> Result<(), Refusal>
        ensures { Notes (S.TemplateSource.meaning source.now) holds.old.records hold.now.number code number holds.new.records result }
    {
        by_number::note(holds, source, hold.number, code, number)
    }

    pub fn copy(&self, holds: &mut Holds, from: &Hold, to: &Hold) -> Result<(), Refusal>
        ensures { Copies holds.old.records «from».now.number to.now.number holds.new.records result }
    {
        by_number::copy(holds, from.number, to.number)
    }

    pub fn tell(&self, holds: &Holds, hold: &Hold) -> Result<Content, Refusal>
        ensures { Tells holds.now.records hold.now.number result }
    {
        by_number::tell(holds, hold.number)
    }

    pub fn look<S: TemplateSource>(
        &self,
        holds: &Holds,
        source: &S,
        hold: &Hold,
        word: u32,
    ) -> Result<u32, Refusal>
        ensures { Looks (S.TemplateSource.meaning source.now) self.now.words.now holds.now.records hold.now.number word result }
    {
        by_number::look(self.words, holds, source, hold.number, word)
    }

    pub fn set<S: TemplateSource>(
        &mut self,
        holds: &Holds,
        source: &S,
        hold: &Hold,
        word: u32,
        number: u32,
    ) -> Result<(), Refusal>
        ensures words { Sets (S.TemplateSource.meaning source.now) self.old.words.now holds.now.records hold.now.number word number self.new.words.now result }
        ensures same { Same self.old.words self.new.words }
        ensures marks { Left self.old.marks self.new.marks self.old.marks.now }
    {
        by_number::set(self.words, holds, source, hold.number, word, number)
    }

    pub fn put<S: TemplateSource>(
        &mut self,
        holds: &Holds,
        source: &S,
        hold: &Hold,
        word: u32,
        from: &Hold,
    ) -> Result<(), Refusal>
        ensures words { Puts (S.TemplateSource.meaning source.now) self.old.words.now holds.now.records hold.now.number word «from».now.number self.new.words.now result }
        ensures same { Same self.old.words self.new.words }
        ensures marks { Left self.old.marks self.new.marks self.old.marks.now }
    {
        by_number::put(self.words, holds, source, hold.number, word, from.number)
    }

    pub fn fetch<S: TemplateSource>(
        &self,
        holds: &mut Holds,
        source: &S,
        hold: &Hold,
        word: u32,
        to: &Hold,
    ) -> Result<(), Refusal>
        ensures { Fetches (S.TemplateSource.meaning source.now) self.now.words.now holds.old.records hold.now.number word to.now.number holds.new.records result }
    {
        by_number::fetch(self.words, holds, source, hold.number, word, to.number)
    }

    // Answers the new cell's address. Where no free run has room for it, what no hold reaches is freed first.
    pub fn make<S: TemplateSource>(
        &mut self,
        holds: &mut Holds,
        source: &S,
        pending: &mut [Frame],
        hold: &Hold,
        code: u32,
    ) -> Result<u32, Refusal>
        ensures made { Makes (S.TemplateSource.meaning source.now) self.old.words.now holds.old.records hold.now.number code (length pending.old) self.old.marks.now self.new.words.now holds.new.records self.new.marks.now result }
        ensures words { Same self.old.words self.new.words }
        ensures marks { Same self.old.marks self.new.marks }
    {
        make(
            self.words,
            self.marks,
            pending,
            holds,
            source,
            hold.number,
            code,
        )
    }

    // The marks are all zero after it, unless the memory is refused.
    pub fn trace<S: TemplateSource, I: Inspector>(
        &mut self,
        pending: &mut [Frame],
        holds: &Holds,
        source: &S,
        inspector: &mut I,
        hold: &Hold,
    ) -> Result<u32, Refusal>
        ensures marks { Traces (S.TemplateSource.meaning source.now) self.old.words.now I.Inspector.step holds.now.records hold.now.number (length pending.old) self.old.marks.now inspector.old self.new.marks.now inspector.new result }
        ensures same { Same self.old.marks self.new.marks }
        ensures words { Left self.old.words self.new.words self.old.words.now }
    {
        // Lent straight from the field, the words would not be known to be the same afterwards.
        let words = &mut *self.words;
        let marks = &mut *self.marks;
        trace(words, marks, pending, holds, source, inspector, hold.number)
    }
}
