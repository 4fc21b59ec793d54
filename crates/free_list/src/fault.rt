ghost use Rattle.std.specs.Prelude.{◌≡◌};
ghost use Rattle.free_list.specs.declared.fault.Fault.TheVariants.{Broken};
ghost use Rattle.free_list.specs.Faults.{refusal_of};

use crate::runs::Break;
use refusals::refusal::Refusal;

// Why no cell can be taken: the words are no heap, a cell has words, or a link leads to no run.
#[derive(Clone, Copy, PartialEq, Eq, Debug)]
pub enum Fault {
    Length,
    Size,
    Broken(u32),
}

impl From<Break> for Fault {
    ghost from_gives = { λ link fault. fault ≡ Broken link.at };

    fn from(link: Break) -> Fault {
        Fault::Broken(link.at)
    }
}

impl From<Fault> for Refusal {
    ghost from_gives = { λ fault refusal. refusal ≡ refusal_of fault };

    // A cell of no words fits no run.
    fn from(fault: Fault) -> Refusal {
        match fault {
            Fault::Length => Refusal::MemorySize,
            Fault::Size => Refusal::NoRun { size: 0 },
            Fault::Broken(at) => Refusal::Broken {
                address: at as usize,
            },
        }
    }
}
