ghost use Rattle.std.specs.Prelude.{length};
ghost use Rattle.replay.specs.Promise.{EveryList};
ghost use Rattle.replay.specs.Replays.{Replays};

use crate::call::{Answer, Call, Phase, Replayed};
use crate::one::Heap;
use calls::holds::Holds;
use heap::open::format_words;
use refusals::refusal::Refusal;
use scan::frame::Frame;
use scan::inspector::Inspector;
use sources::source::TemplateSource;

// Runs the calls, one after the other, on a new heap over the lent words and marks, and writes their answers. The run ends at a
// call that does not exist in the state of the heap, and where there is no room for an answer.
pub fn replay<S: TemplateSource, I: Inspector>(
    source: &S,
    words: &mut [u32],
    marks: &mut [u8],
    places: &mut [Frame],
    calls: &mut [Call<I>],
    answers: &mut [Result<Answer, Refusal>],
) -> Result<Replayed, Refusal>
    ensures { Replays (S.TemplateSource.meaning source.now) I.Inspector.step (length places.old) words.old marks.old calls.old answers.old words.new marks.new calls.new answers.new result }
{
    format_words(words, marks.len())?;
    let mut heap = Heap {
        words,
        marks,
        holds: Holds::new(),
        phase: Phase::Open,
    };
    let most = calls.len().min(answers.len());
    // By index: of what is written through a `zip` of two `iter_mut`, a proof knows no element.
    for i in 0..most {
        match heap.carry_out(places, source, &mut calls[i]) {
            Some(answer) => answers[i] = answer,
            None => {
                return Ok(Replayed {
                    count: i,
                    phase: heap.phase,
                    holds: heap.holds,
                });
            }
        }
    }
    Ok(Replayed {
        count: most,
        phase: heap.phase,
        holds: heap.holds,
    })
}

// The promise over every list of calls, by itself.
pub fn every_list<I: Inspector>()
    ensures { EveryList I.Inspector.step }
{}
