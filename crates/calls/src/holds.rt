ghost use Rattle.std.specs.Prelude.{◌≡◌, ℕ, ◌≤◌, [], ◌∷◌, replicate, slice_set};
ghost use Rattle.calls.specs.Holds.{unheld, holding, at};
ghost use Rattle.calls.specs.Rows.{row_2};
ghost use Rattle.calls.specs.Calls.{Answers, held_due, copy_due};

use crate::record::HoldRecord;
use cells::content::Content;
use refusals::refusal::Refusal;

// The last hold.
pub const LAST_HOLD: u32 = 63;

// The 64 holds.
#[derive(Drop)]
pub struct Holds {
    pub(crate) records: [HoldRecord; 64],
}

impl Holds {
    // A table as it is, of this heap or another.
    pub fn adopt(records: [HoldRecord; 64]) -> Holds
        ensures { result.records ≡ records }
    {
        Holds { records }
    }

    // No hold is held.
    pub fn new() -> Holds
        ensures { result.records ≡ replicate 64 unheld }
    {
        Holds {
            records: [HoldRecord::default(); 64],
        }
    }

    // The records, that of hold 0 first.
    pub fn records(&self) -> &[HoldRecord]
        ensures { result.now ≡ self.now.records }
    {
        &self.records
    }

    // What the hold has.
    pub(crate) fn content(&self, hold: u32) -> Result<Content, Refusal>
        ensures { Answers (held_due self.now.records hold) (Unit {0}) (λ k. at self.now.records hold ≡ holding k) result }
    {
        check_number(hold)?;
        self.records[hold as usize]
            .told()
            .ok_or(Refusal::HoldState { hold })
    }

    // What each of two holds has; their numbers are checked first.
    pub(crate) fn contents(&self, first: u32, second: u32) -> Result<(Content, Content), Refusal>
        ensures { Answers (copy_due self.now.records first second) (Unit {0}) (λ p. (at self.now.records first ≡ holding p.0) × (at self.now.records second ≡ holding p.1)) result }
    {
        check_number(first)?;
        check_number(second)?;
        Ok((self.content(first)?, self.content(second)?))
    }

    // The hold is held, with the content; above the last hold there is none to get it.
    pub(crate) fn fill(&mut self, hold: u32, content: Content)
        ensures { self.new.records ≡ slice_set self.old.records hold (holding content) }
    {
        // By its index, since nothing is known of an array after a write through its `get_mut`.
        if hold <= LAST_HOLD {
            self.records[hold as usize].fill(content);
        }
    }
}

// Refuses a number that no hold has.
pub(crate) fn check_number(hold: u32) -> Result<(), Refusal>
    ensures { Answers (row_2 (hold ∷ [])) (Unit {0}) (λ _. hold ≤ 63) result }
{
    if hold > LAST_HOLD {
        return Err(Refusal::HoldNumber { hold });
    }
    Ok(())
}
