ghost use Rattle.std.specs.Prelude.{◌≡◌, ℕ, length};
ghost use Rattle.layouts.specs.Types.{Types};
ghost use Rattle.replay.specs.declared.call.Phase.TheVariants.{Open, Marked};
ghost use Rattle.replay.specs.Lent.{pending_of};
ghost use Rattle.replay.specs.Steps.{CellStep};
ghost use Rattle.replay.specs.Carries.{Carries, SameMemory, state_of};

use crate::call::{Answer, Call, CellCall, Phase};
use calls::by_number;
use calls::holds::Holds;
use making::by_number::make;
use marking::mark::mark_holds;
use refusals::refusal::Refusal;
use scan::frame::Frame;
use scan::inspector::Inspector;
use sources::source::TemplateSource;
use sweeping::survey::survey;
use sweeping::sweep::sweep;
use tracing::by_number::trace;

// A call that reads or writes holds and cells.
fn cell_call<S: TemplateSource>(
    words: &mut [u32],
    holds: &mut Holds,
    source: &S,
    call: CellCall,
) -> Result<Answer, Refusal>
    ensures { CellStep (S.TemplateSource.meaning source.now) call words.old holds.old.records result words.new holds.new.records }
{
    match call {
        CellCall::Take { hold } => by_number::take(holds, hold).map(|()| Answer::Done),
        CellCall::Release { hold } => by_number::release(holds, hold).map(|()| Answer::Done),
        CellCall::Note { hold, code, number } => {
            by_number::note(holds, source, hold, code, number).map(|()| Answer::Done)
        }
        CellCall::Copy { from, to } => by_number::copy(holds, from, to).map(|()| Answer::Done),
        CellCall::Tell { hold } => by_number::tell(holds, hold).map(Answer::Told),
        CellCall::Look { hold, word } => {
            by_number::look(words, holds, source, hold, word).map(Answer::Number)
        }
        CellCall::Set { hold, word, number } => {
            by_number::set(words, holds, source, hold, word, number).map(|()| Answer::Done)
        }
        CellCall::Put { hold, word, from } => {
            by_number::put(words, holds, source, hold, word, from).map(|()| Answer::Done)
        }
        CellCall::Fetch { hold, word, to } => {
            by_number::fetch(words, holds, source, hold, word, to).map(|()| Answer::Done)
        }
    }
}

// How many pending places the call is to be lent; the calls that do not scan need none.
fn pending<I>(call: &Call<I>) -> usize
    ensures { result ≡ pending_of call.now }
{
    match call {
        Call::Make { pending, .. } | Call::Trace { pending, .. } | Call::Mark { pending } =>
            *pending,
        Call::Cell(_) | Call::Survey | Call::Unmark | Call::Sweep => 0,
    }
}

// A heap over lent words and marks, with holds of its own, in one of its two states.
#[derive(Drop)]
pub(crate) struct Heap<'a> {
    pub words: &'a mut [u32],
    pub marks: &'a mut [u8],
    pub holds: Holds,
    pub phase: Phase,
}

impl Heap<'_> {
    // A call in Open, or none where it does not exist there. A call is lent no more pending places than there are.
    fn in_open<S: TemplateSource, I: Inspector>(
        &mut self,
        places: &mut [Frame],
        source: &S,
        call: &mut Call<I>,
    ) -> Option<Result<Answer, Refusal>>
        requires { self.old.phase ≡ Open }
        ensures same_memory { SameMemory self.old self.new }
        ensures carries { Carries (S.TemplateSource.meaning source.now) I.Inspector.step (length places.old) call.old (state_of self.old) result (state_of self.new) call.new }
    {
        // Reborrowed here: of a field that is passed on as a shared slice, a proof knows only the length afterwards.
        let words = &mut *self.words;
        let marks = &mut *self.marks;
        let holds = &mut self.holds;
        let count = pending(call).min(places.len());
        let lent = &mut places[..count];
        match call {
            Call::Cell(cell) => Some(cell_call(words, holds, source, *cell)),
            Call::Make { hold, code, .. } => {
                Some(make(words, marks, lent, holds, source, *hold, *code).map(Answer::Number))
            }
            Call::Trace {
                hold,
                inspector,
                ..
            } => {
                Some(trace(words, marks, lent, holds, source, inspector, *hold).map(Answer::Number))
            }
            Call::Mark { .. } => {
                let marked = mark_holds(words, marks, lent, holds, source);
                if marked.is_ok() {
                    self.phase = Phase::Marked;
                }
                Some(marked.map(Answer::Number))
            }
            Call::Survey | Call::Unmark | Call::Sweep => None,
        }
    }

    // A call in Marked, or none where it does not exist there.
    fn in_marked<I: Inspector>(&mut self, call: &Call<I>) -> Option<Result<Answer, Refusal>>
        requires { self.old.phase ≡ Marked }
        ensures same_memory { SameMemory self.old self.new }
        ensures carries { (t : Types) (P : ℕ) → Carries t I.Inspector.step P call.now (state_of self.old) result (state_of self.new) call.now }
    {
        let words = &mut *self.words;
        let marks = &mut *self.marks;
        match call {
            Call::Survey => Some(survey(words.len(), marks).map(Answer::Number)),
            Call::Unmark => {
                marks.fill(0);
                self.phase = Phase::Open;
                Some(Ok(Answer::Done))
            }
            Call::Sweep => {
                let swept = sweep(words, marks);
                if swept.is_ok() {
                    self.phase = Phase::Open;
                }
                Some(swept.map(Answer::Number))
            }
            Call::Cell(_) | Call::Make { .. } | Call::Trace { .. } | Call::Mark { .. } => None,
        }
    }

    // One call, or none where it does not exist in the heap's state.
    pub fn carry_out<S: TemplateSource, I: Inspector>(
        &mut self,
        places: &mut [Frame],
        source: &S,
        call: &mut Call<I>,
    ) -> Option<Result<Answer, Refusal>>
        ensures same_memory { SameMemory self.old self.new }
        ensures carries { Carries (S.TemplateSource.meaning source.now) I.Inspector.step (length places.old) call.old (state_of self.old) result (state_of self.new) call.new }
    {
        match self.phase {
            Phase::Open => self.in_open(places, source, call),
            Phase::Marked => self.in_marked(call),
        }
    }
}
