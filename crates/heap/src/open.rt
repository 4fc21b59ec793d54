ghost use Rattle.std.specs.Prelude.{◌≡◌, ◌≤◌, length};
ghost use Rattle.calls.specs.Calls.{Answers};
ghost use Rattle.calls.specs.Rows.{row_1};
ghost use Rattle.heap.specs.Memory.{new_words, Left, Opens};

use crate::memory::{Memory, Open};
pub use calls::memory::{FEWEST_WORDS, MOST_WORDS, check_memory};
use free_list::halves::Halves;
use refusals::refusal::Refusal;

// Makes the words those of a new heap.
fn write_new(words: &mut [u32])
    requires some { 2 ≤ length words.old }
    requires long { length words.old ≤ 65536 }
    ensures { words.new ≡ new_words (length words.old) }
{
    words.fill(0);
    let size = words.len() as u32 - 1;
    words[0] = Halves { size: 0, link: 1 }.into();
    words[1] = Halves { size, link: 0 }.into();
}

// Makes the words those of a new heap, over as many marks.
pub fn format_words(words: &mut [u32], marks: usize) -> Result<(), Refusal>
    ensures { Answers (row_1 (length words.old) marks) (words.new ≡ words.old) (λ _. words.new ≡ new_words (length words.old)) result }
{
    check_memory(words.len(), marks)?;
    write_new(words);
    Ok(())
}

impl<'m> Open<'m> {
    // A heap on words and marks as they are.
    pub fn adopt(memory: Memory<'m>) -> Result<Open<'m>, (Memory<'m>, Refusal)>
        ensures { Opens (λ L w. w) memory.entry result }
    {
        if let Err(refusal) = check_memory(memory.words.len(), memory.marks.len()) {
            return Err((memory, refusal));
        }
        let Memory { words, marks } = memory;
        Ok(Open { words, marks })
    }

    // A new heap, all of whose words but word 0 are one free run. The marks stay as they are.
    pub fn new(memory: Memory<'m>) -> Result<Open<'m>, (Memory<'m>, Refusal)>
        ensures { Opens (λ L w. new_words L) memory.entry result }
    {
        let Open { words, marks } = Open::adopt(memory)?;
        write_new(words);
        Ok(Open { words, marks })
    }

    // The memory, taken back.
    pub fn close(self) -> Memory<'m>
        ensures { (Left self.entry.words result.words self.entry.words.now) × (Left self.entry.marks result.marks self.entry.marks.now) }
    {
        let Open { words, marks } = self;
        Memory { words, marks }
    }
}
