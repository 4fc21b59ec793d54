ghost use Rattle.std.specs.Prelude.{◌≡◌, not, MatchResult};
ghost use Rattle.std.specs.Bool.{then_some};
ghost use Rattle.refusals.specs.declared.refusal.Refusal.TheVariants.{HoldState};
ghost use Rattle.cells.specs.declared.content.Content.TheVariants.{Nothing};
ghost use Rattle.calls.specs.Holds.{holding, root_of};

use cells::content::Content;
use refusals::refusal::Refusal;

// One hold: whether it is held, and with what.
// No `Option`: a table is adopted and given back as it is, also with a content where nothing is held.
#[derive(Clone, Copy, PartialEq, Eq, Debug, Default)]
pub struct HoldRecord {
    pub held: bool,
    pub content: Content,
}

impl HoldRecord {
    // What the hold has, where it is held.
    pub(crate) fn told(self) -> Option<Content>
        ensures { result ≡ then_some self.held self.content }
    {
        self.held.then_some(self.content)
    }

    // What the hold has, and nothing where it is not held.
    pub fn root(self) -> Content
        ensures { result ≡ root_of self }
    {
        self.told().unwrap_or_default()
    }

    // The record becomes held or not, with nothing, where it was the other.
    pub(crate) fn set_held(&mut self, held: bool, hold: u32) -> Result<(), Refusal>
        ensures { MatchResult result (λ _. (self.old.held ≡ not held) × (self.new ≡ record { held = held; content = Nothing })) (λ f. (self.old.held ≡ held) × (f ≡ HoldState hold) × (self.new ≡ self.old)) }
    {
        if self.held == held {
            return Err(Refusal::HoldState { hold });
        }
        *self = HoldRecord {
            held,
            content: Content::Nothing,
        };
        Ok(())
    }

    // The record is held, with the content.
    pub(crate) fn fill(&mut self, content: Content)
        ensures { self.new ≡ holding content }
    {
        *self = HoldRecord {
            held: true,
            content,
        };
    }
}
