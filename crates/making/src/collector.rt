ghost use Rattle.std.specs.Prelude.{◌≡◌, ◌≤◌, false, length, is_some};
ghost use Rattle.calls.specs.Rows.{memory_due};
ghost use Rattle.making.specs.Makes.{Collected, Found};

use calls::holds::Holds;
use free_list::take::take_cell;
use marking::mark::mark_holds;
use refusals::refusal::Refusal;
use scan::frame::Frame;
use sources::source::TemplateSource;
use sweeping::sweep::sweep;

// What a collection is made in, where the memory is large enough for one.
#[derive(Drop)]
pub(crate) struct Collector<'a, S: TemplateSource> {
    pub(crate) words: &'a mut [u32],
    pub(crate) marks: &'a mut [u8],
    pub(crate) pending: &'a mut [Frame],
    pub(crate) holds: &'a Holds,
    pub(crate) source: &'a S,
    ghost large: { is_some (memory_due (length words.now) (length marks.now) (length pending.now)) ≡ false },
}

impl<S: TemplateSource> Collector<'_, S> {
    // Marks what the holds reach, and makes the rest the free list.
    fn collect(&mut self) -> Result<(), Refusal>
        ensures words { self.new.words.ghost_name ≡ self.old.words.ghost_name }
        ensures marks { self.new.marks.ghost_name ≡ self.old.marks.ghost_name }
        ensures holds { self.new.holds.now ≡ self.old.holds.now }
        ensures source { self.new.source.now ≡ self.old.source.now }
        ensures collected { Collected (S.TemplateSource.meaning self.old.source.now) self.old.words.now self.old.holds.now.records self.new.words.now result }
    {
        // Lent as they stand in the struct, the words would afterwards be known by their number alone.
        let words = &mut *self.words;
        let marks = &mut *self.marks;
        mark_holds(words, marks, self.pending, self.holds, self.source)?;
        sweep(words, marks)?;
        Ok(())
    }

    // A cell of n words, after a collection where no run has room.
    pub(crate) fn find_cell(&mut self, n: u32) -> Result<u32, Refusal>
        requires { 1 ≤ n }
        ensures words { self.new.words.ghost_name ≡ self.old.words.ghost_name }
        ensures marks { self.new.marks.ghost_name ≡ self.old.marks.ghost_name }
        ensures found { Found (S.TemplateSource.meaning self.old.source.now) self.old.words.now self.old.holds.now.records n self.new.words.now result }
    {
        if let Some(address) = take_cell(self.words, n)? {
            return Ok(address);
        }
        self.collect()?;
        take_cell(self.words, n)?.ok_or(Refusal::NoRun { size: n })
    }
}
