ghost use Rattle.std.specs.Prelude.{◌≡◌, ◌+◌, ◌<◌, ◌≤◌, length};
ghost use Rattle.std.specs.List.{between};
ghost use Rattle.cells.specs.Words.{place};
ghost use Rattle.scan.specs.Visits.{Visited, visit_of};
ghost use Rattle.scan.specs.Marks.{mark_words, unmarked};
ghost use Rattle.scan.specs.Children.{width, child_at};
ghost use Rattle.scan.specs.Answers.{Answers};

use crate::frame::{Child, Frame};
use crate::guard::MARKED;
use crate::inspector::{Full, Inspector};
use crate::scanned::{Scanned, Stop, Unscanned};
use cells::content::Content;
use cells::words::{does_fit, read_content, words_of};
use layouts::entry::Class;
use sources::source::TemplateSource;
use sources::uses::class;

// A scan under way: what it is lent, how many of the pending places hold a frame, and how many cells were visited. The places are
// lent, with their number beside them, because the scan takes no memory of its own.
#[derive(Drop)]
struct Walk<'a, S> {
    words: &'a [u32],
    marks: &'a mut [u8],
    pending: &'a mut [Frame],
    source: &'a S,
    depth: usize,
    visits: usize,
    ghost same: { length marks.now ≡ length words.now },
    ghost places: { length words.now ≤ length pending.now },
}

// Marks the words of a cell.
fn mark(marks: &mut [u8], address: u32, count: u32)
    requires { address + count ≤ length marks.old }
    ensures { marks.new ≡ mark_words marks.old address count }
{
    let start = address as usize;
    marks[start..start + count as usize].fill(MARKED);
}

// Where the frame's next word stands.
fn place_of(frame: Frame) -> usize
    requires { 1 ≤ frame.word }
    ensures { result ≡ place frame.address frame.word }
{
    frame.address as usize + (frame.word as usize - 1)
}

impl<'a, S: TemplateSource> Walk<'a, S> {
    ghost use Rattle.scan.specs.Pending.{Entered, Same, UnderWay, Turned, Ran};

    // Opens the cell of a pointer unless it is marked.
    fn enter(&mut self, code: u32, address: u32)
        requires some { 0 < width (S.TemplateSource.meaning self.old.source.now) code }
        requires within { address + width (S.TemplateSource.meaning self.old.source.now) code ≤ length self.old.words.now }
        requires room { self.old.depth + unmarked self.old.marks.now ≤ length self.old.words.now }
        ensures same { Same self.old self.new }
        ensures visits { self.new.visits ≡ self.old.visits }
        ensures entered { Entered (S.TemplateSource.meaning self.old.source.now) code address self.old.marks.now self.old.pending.now self.old.depth self.new.marks.now self.new.pending.now self.new.depth }
    {
        let is_marked = self.marks[address as usize] == MARKED;
        if is_marked {
            return;
        }
        let n = words_of(self.source, code);
        mark(self.marks, address, n);
        self.pending[self.depth] = Frame {
            code,
            address,
            word: 1,
        };
        self.depth += 1;
    }

    // What the frame's next word leads to.
    fn child_of(&self, frame: Frame) -> Child
        requires { 1 ≤ frame.word }
        ensures { result ≡ child_at (S.TemplateSource.meaning self.now.source.now) self.now.words.now frame.code frame.address frame.word }
    {
        let class = class(self.source, frame.code, frame.word);
        match class {
            Class::Plain | Class::SecondHalf => return Child::Nothing,
            Class::Pointer | Class::Typed(_) => {}
        }
        match read_content(self.words, self.source, place_of(frame), class) {
            None => Child::Misfit,
            Some(Content::Cell { code, address }) => Child::Cell { code, address },
            Some(Content::Nothing) | Some(Content::Immediate { .. }) => Child::Nothing,
        }
    }

    // Shows the frame's cell, of n words, to the inspector.
    fn show<I: Inspector>(&self, frame: Frame, n: u32, inspector: &mut I) -> Result<(), Full>
        requires { frame.address + n ≤ length self.now.words.now }
        ensures { Visited (I.Inspector.step inspector.old (visit_of frame.code frame.address (between frame.address (frame.address + n) self.now.words.now))) inspector.old inspector.new result }
    {
        let start = frame.address as usize;
        let words = &self.words[start..start + n as usize];
        inspector.visit(frame.code, frame.address, words)
    }

    // One turn: the next word of the top frame's cell, or the cell's visit.
    fn turn<I: Inspector>(&mut self, inspector: &mut I) -> Result<(), Stop>
        requires deep { 0 < self.old.depth }
        requires under_way { UnderWay S.TemplateSource.meaning self.old }
        ensures same { Same self.old self.new }
        ensures turned { Turned S.TemplateSource.meaning I.Inspector.step self.old inspector.old self.new inspector.new result }
    {
        let top = self.depth - 1;
        let frame = self.pending[top];
        let n = words_of(self.source, frame.code);
        if frame.word > n {
            let Ok(()) = self.show(frame, n, inspector) else {
                return Err(Stop::Full {
                    address: frame.address,
                });
            };
            self.depth = top;
            self.visits += 1;
            return Ok(());
        }
        self.pending[top].word = frame.word + 1;
        match self.child_of(frame) {
            Child::Nothing => {}
            Child::Cell { code, address } => self.enter(code, address),
            Child::Misfit => {
                return Err(Stop::Broken {
                    address: place_of(frame),
                });
            }
        }
        Ok(())
    }

    // Turn after turn, until no frame is pending or the scan stops.
    fn run<I: Inspector>(&mut self, inspector: &mut I) -> Result<(), Stop>
        requires { UnderWay S.TemplateSource.meaning self.old }
        ensures same { Same self.old self.new }
        ensures ran { Ran S.TemplateSource.meaning I.Inspector.step self.old inspector.old self.new inspector.new result }
    {
        while self.depth > 0 {
            self.turn(inspector)?;
        }
        Ok(())
    }
}

// Marks what the pointer reaches and shows each cell to the inspector once its children are done. The pending places are scratch:
// what a scan leaves in them means nothing. What is lent comes in parts, each of any length, since memory that does not fit together
// is answered and not ruled out by a type.
pub fn scan<S: TemplateSource, I: Inspector>(
    words: &[u32],
    marks: &mut [u8],
    pending: &mut [Frame],
    source: &S,
    inspector: &mut I,
    code: u32,
    address: u32,
) -> Result<Scanned, Unscanned>
    ensures { Answers (S.TemplateSource.meaning source.now) words.now I.Inspector.step code address marks.old pending.old inspector.old marks.new pending.new inspector.new result }
{
    if marks.len() != words.len() || pending.len() < words.len() {
        return Err(Unscanned::Memory);
    }
    if !does_fit(source, words.len(), code, address) {
        return Err(Unscanned::Root);
    }
    let mut walk = Walk {
        words,
        marks,
        pending,
        source,
        depth: 0,
        visits: 0,
    };
    walk.enter(code, address);
    let ending = walk.run(inspector);
    Ok(Scanned {
        ending,
        visits: walk.visits,
    })
}
