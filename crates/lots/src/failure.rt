ghost use Rattle.std.specs.Prelude.{◌≡◌};
ghost use Rattle.lots.specs.declared.failure.Failure.TheVariants.{NoMemory};

use std::alloc::AllocError;

// Why something was not made: it is refused, or there was no memory for it.
#[derive(Clone, Copy, PartialEq, Eq, Debug)]
pub enum Failure<R> {
    Refused(R),
    NoMemory(AllocError),
}

impl<R: Drop> From<AllocError> for Failure<R> {
    ghost from_gives = { λ e r. r ≡ NoMemory e };

    fn from(error: AllocError) -> Failure<R> {
        Failure::NoMemory(error)
    }
}
