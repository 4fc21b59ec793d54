ghost use Rattle.std.specs.Prelude.{◌≡◌, ℕ, ◌≤◌, ◌⊎◌, List, length, string_bytes};
ghost use Rattle.std.specs.Result as results;
ghost use Rattle.sources.specs.Errors.{NoTable};
ghost use Rattle.sources.specs.Words.{words_of};
ghost use Rattle.lines.specs.Commands.{Holds};
ghost use Rattle.lines.specs.Numbers.{Lists};
ghost use Rattle.lines.specs.Requests as requests;
ghost use Rattle.lines.specs.Requests.{Request, Bounded};
ghost use Rattle.script.specs.Coming.{Comes, ComesTo};
ghost use Rattle.script.specs.Obeying.{empty, calling, phase_of, Brings};
ghost use Rattle.script.specs.Session.{state, Answers};

use crate::reply::Reply;
use crate::store::Store;
use lines::command::{Command, MOST_WORDS, read};
use lines::number::numbers_in;
use lines::part::Part;
use refusals::refusal::Refusal;
use sources::error::Failure;
use sources::over::Over;
use sources::table::Table;
use std::alloc::{AllocError, Global};

// What the lines so far have come to.
#[derive(Drop)]
pub struct Session {
    store: Option<Store>,
}

// The table of a command's numbers, or why there is none. Kept out of line, so that only a line of a table pays for its flags.
#[inline(never)]
fn table_of(heap: Global, follow: Part<'_>) -> Result<Table, Failure>
    ensures { (ns : List ℕ) → Lists follow.entry.text.now ns → length ns ≤ 64 → results.MatchResult result (λ t. words_of t ≡ ns) (λ e. NoTable ns e) }
{
    let words = numbers_in::<MOST_WORDS>(follow.text).unwrap_or_default();
    Table::new(heap, words.as_slice())
}

impl Session {
    pub fn new() -> Session
        ensures { state result ≡ empty }
    {
        Session { store: None }
    }

    // Takes a table, where none was accepted yet.
    fn take_types(&mut self, heap: Global, number: u64, follow: Part<'_>) -> Result<Reply, Failure>
        ensures { (ns : List ℕ) → Lists follow.entry.text.now ns → length ns ≤ 64 → ComesTo (λ outcome. Brings (state self.old) number (requests.types ns) (state self.new) outcome) (self.new ≡ self.old) result }
    {
        if self.store.is_some() {
            return Err(Refusal::NotALine { line: number }.into());
        }
        let table = table_of(heap, follow)?;
        self.store = Some(Store {
            source: Over { below: table },
            heap: None,
        });
        Ok(Reply::Done)
    }

    // Makes a heap, where there is a table and no heap yet.
    fn open_heap(&mut self, heap: Global, number: u64, length: u32) -> Result<Reply, Failure>
        ensures { ComesTo (λ outcome. Brings (state self.old) number (requests.heap length) (state self.new) outcome) (self.new ≡ self.old) result }
    {
        match &mut self.store {
            Some(store) if store.heap.is_none() => store.open(heap, length),
            _ => Err(Refusal::NotALine { line: number }.into()),
        }
    }

    // Calls on the heap, where there is one.
    fn call(&mut self, number: u64, command: Command<'_>) -> Result<Reply, Refusal>
        ensures { (line : List ℕ) (q : Request) → Holds command.entry line q → phase_of q ≡ calling → Brings (state self.old) number q (state self.new) result }
    {
        match &mut self.store {
            Some(store) => store.call(number, command),
            None => Err(Refusal::NotALine { line: number }),
        }
    }

    fn obey(&mut self, heap: Global, number: u64, command: Command<'_>) -> Result<Reply, Failure>
        ensures { (line : List ℕ) (q : Request) → Bounded q → Holds command.entry line q → ComesTo (λ outcome. Brings (state self.old) number q (state self.new) outcome) (self.new ≡ self.old) result }
    {
        match command {
            Command::Types { numbers } => self.take_types(heap, number, numbers),
            Command::Heap { length } => self.open_heap(heap, number, length.value),
            _ => Ok(self.call(number, command)?),
        }
    }

    // What a line comes to.
    fn obey_line(&mut self, heap: Global, number: u64, line: &[u8]) -> Result<Reply, Failure>
        ensures { ComesTo (λ outcome. Comes line.now (state self.old) number (state self.new) outcome) (self.new ≡ self.old) result }
    {
        let command = read(line, number)?;
        self.obey(heap, number, command)
    }

    // Obeys a line, and answers with what it prints. Without memory the line is not obeyed, or only its answer is missing.
    pub fn answer(&mut self, heap: Global, number: u64, line: &[u8]) -> Result<String, AllocError>
        ensures { results.MatchResult result (λ t. Answers line.now number (state self.old) (string_bytes t) (state self.new)) (λ _. (state self.new ≡ state self.old) ⊎ ((bytes : List ℕ) × Answers line.now number (state self.old) bytes (state self.new))) }
    {
        match self.obey_line(heap, number, line) {
            Ok(reply) => format!(in heap; "{reply}\n"),
            Err(Failure::Refused(refusal)) => {
                let number = refusal.number();
                format!(in heap; "no {number}\n")
            }
            Err(Failure::NoMemory) => Err(AllocError),
        }
    }
}
