use calls::holds::Holds;
use cells::content::Content;

// A call that reads or writes holds and cells, by hold number.
#[derive(Clone, Copy, PartialEq, Eq, Debug)]
pub enum CellCall {
    Take { hold: u32 },
    Release { hold: u32 },
    Note { hold: u32, code: u32, number: u32 },
    Copy { from: u32, to: u32 },
    Tell { hold: u32 },
    Look { hold: u32, word: u32 },
    Set { hold: u32, word: u32, number: u32 },
    Put { hold: u32, word: u32, from: u32 },
    Fetch { hold: u32, word: u32, to: u32 },
}

// One call of a list. A call that scans says how many of the pending places it is lent, and a trace brings its inspector.
#[derive(Drop)]
pub enum Call<I> {
    Cell(CellCall),
    Make {
        hold: u32,
        code: u32,
        pending: usize,
    },
    Trace {
        hold: u32,
        pending: usize,
        inspector: I,
    },
    Mark {
        pending: usize,
    },
    Survey,
    Unmark,
    Sweep,
}

// What an accepted call answers: done, the content that a hold has, or a number (of a word, of cells, of words; of a new cell its
// address).
#[derive(Clone, Copy, PartialEq, Eq, Debug)]
pub enum Answer {
    Done,
    Told(Content),
    Number(u32),
}

// The two states of a heap.
#[derive(Clone, Copy, PartialEq, Eq, Debug)]
pub enum Phase {
    Open,
    Marked,
}

// A list that was run: how many calls were carried out, the state of the heap then, and the holds.
#[derive(Drop)]
pub struct Replayed {
    pub count: usize,
    pub phase: Phase,
    pub holds: Holds,
}
