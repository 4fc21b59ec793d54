ghost use Rattle.std.specs.Prelude.{◌≡◌, ℕ, List, None};
ghost use Rattle.lines.specs.Commands.{Holds as Held};
ghost use Rattle.lines.specs.Requests as requests;
ghost use Rattle.lines.specs.Requests.{Request};
ghost use Rattle.script.specs.Coming.{ComesTo};
ghost use Rattle.script.specs.Obeying.{calling, phase_of, Obeys, Brings};
ghost use Rattle.script.specs.declared.reply.Reply.TheVariants.{Done};
ghost use Rattle.script.specs.Session.{opened, with_heap};

use crate::reply::Reply;
use calls::by_number::{copy, fetch, look, note, put, release, set, take, tell};
use calls::holds::Holds;
use heap::open::format_words;
use lines::command::Command;
use refusals::refusal::Refusal;
use sources::error::Failure;
use sources::over::Over;
use sources::table::Table;
use std::alloc::Global;

// A heap with its holds.
#[derive(Drop)]
pub(crate) struct Heap {
    pub(crate) words: Vec<u32>,
    pub(crate) marks: Vec<u8>,
    pub(crate) holds: Holds,
}

// The table that was accepted, and then the heap.
#[derive(Drop)]
pub(crate) struct Store {
    pub(crate) source: Over<Table>,
    pub(crate) heap: Option<Heap>,
}

impl Heap {
    // What a command on the holds and the words comes to.
    pub(crate) fn call(
        &mut self,
        source: &Over<Table>,
        number: u64,
        command: Command<'_>,
    ) -> Result<Reply, Refusal>
        ensures { (line : List ℕ) (q : Request) → Held command.entry line q → Brings (opened source.now self.old) number q (opened source.now self.new) result }
    {
        let words = &mut self.words;
        let holds = &mut self.holds;
        match command {
            Command::Types { .. } | Command::Heap { .. } => Err(Refusal::NotALine { line: number }),
            Command::Take { hold } => take(holds, hold.value).map(done),
            Command::Release { hold } => release(holds, hold.value).map(done),
            Command::Note { hold, code, number } => {
                note(holds, source, hold.value, code.value, number.value).map(done)
            }
            Command::Copy { from, to } => copy(holds, from.value, to.value).map(done),
            Command::Tell { hold } => tell(holds, hold.value).map(Reply::Has),
            Command::Look { hold, word } => {
                look(words, holds, source, hold.value, word.value).map(Reply::Number)
            }
            Command::Set { hold, word, number } => {
                set(words, holds, source, hold.value, word.value, number.value).map(done)
            }
            Command::Put { hold, word, from } => {
                put(words, holds, source, hold.value, word.value, from.value).map(done)
            }
            Command::Fetch { hold, word, to } => {
                fetch(words, holds, source, hold.value, word.value, to.value).map(done)
            }
        }
    }
}

// The reply to a call that has nothing to tell.
fn done(_: ()) -> Reply
    ensures { result ≡ Done }
{
    Reply::Done
}

impl Store {
    // Makes a new heap of that many words.
    pub(crate) fn open(&mut self, heap: Global, length: u32) -> Result<Reply, Failure>
        requires { self.old.heap ≡ None }
        ensures { ComesTo (λ outcome. Obeys (with_heap self.old.source self.old.heap) (requests.heap length) (with_heap self.new.source self.new.heap) outcome) (self.new ≡ self.old) result }
    {
        let mut words = Vec::from_elem(heap, 0u32, length as usize)?;
        let marks = Vec::from_elem(heap, 0u8, length as usize)?;
        format_words(words.as_mut_slice(), marks.len())?;
        self.heap = Some(Heap {
            words,
            marks,
            holds: Holds::new(),
        });
        Ok(Reply::Done)
    }

    // Calls on the heap, where there is one. Apart from `Session::call`, since of a pattern that looks into both options at once the
    // proof did not close.
    pub(crate) fn call(&mut self, number: u64, command: Command<'_>) -> Result<Reply, Refusal>
        ensures { (line : List ℕ) (q : Request) → Held command.entry line q → phase_of q ≡ calling → Brings (with_heap self.old.source self.old.heap) number q (with_heap self.new.source self.new.heap) result }
    {
        match &mut self.heap {
            Some(heap) => heap.call(&self.source, number, command),
            None => Err(Refusal::NotALine { line: number }),
        }
    }
}
