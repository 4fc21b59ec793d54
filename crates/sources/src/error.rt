ghost use Rattle.std.specs.Prelude.{◌≡◌};
ghost use Rattle.sources.specs.declared.error.Failure.TheVariants.{Refused, NoMemory};

use refusals::refusal::Refusal;
use std::alloc::AllocError;

// Why a call that may want memory gives nothing: it is refused, or there is no memory.
#[derive(Clone, Copy, PartialEq, Eq, Debug)]
pub enum Failure {
    Refused(Refusal),
    NoMemory,
}

impl From<Refusal> for Failure {
    ghost from_gives = { λ f e. e ≡ Refused f };

    fn from(refusal: Refusal) -> Failure {
        Failure::Refused(refusal)
    }
}

impl From<AllocError> for Failure {
    ghost from_gives = { λ _ e. e ≡ NoMemory };

    fn from(_error: AllocError) -> Failure {
        Failure::NoMemory
    }
}
