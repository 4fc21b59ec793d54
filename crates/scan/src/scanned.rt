ghost use Rattle.std.specs.Prelude.{◌≡◌};
ghost use Rattle.scan.specs.Endings.{refusal_of, unmade};

use refusals::refusal::Refusal;

// Why a scan stops: a word's child does not fit, or the inspector is full at a cell.
#[derive(Clone, Copy, PartialEq, Eq, Debug)]
pub enum Stop {
    Broken { address: usize },
    Full { address: u32 },
}

impl From<Stop> for Refusal {
    ghost from_gives = { λ stop refusal. refusal ≡ refusal_of stop };

    fn from(stop: Stop) -> Refusal {
        match stop {
            Stop::Broken { address } => Refusal::Broken { address },
            Stop::Full { address } => Refusal::InspectorFull { address },
        }
    }
}

// A scan that was made: how it ended, and how many cells were visited.
#[derive(Clone, Copy, PartialEq, Eq, Debug)]
pub struct Scanned {
    pub ending: Result<(), Stop>,
    pub visits: usize,
}

// Why no scan was made: marks that are not as many as the words, or pending places that are fewer; or a pointer whose cell does
// not fit.
#[derive(Clone, Copy, PartialEq, Eq, Debug)]
pub enum Unscanned {
    Memory,
    Root,
}

impl From<Unscanned> for Refusal {
    ghost from_gives = { λ unscanned refusal. refusal ≡ unmade unscanned };

    fn from(unscanned: Unscanned) -> Refusal {
        match unscanned {
            Unscanned::Memory => Refusal::MemorySize,
            Unscanned::Root => Refusal::Broken { address: 0 },
        }
    }
}
