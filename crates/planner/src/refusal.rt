// Why no plan is made.
ghost use Rattle.std.specs.Prelude.{◌≡◌};
ghost use Rattle.planner.specs.declared.refusal.PlanRefusal.TheVariants.{Feed as OfFeed, Memory};

use feeds::FeedFault;
use std::alloc::{AllocError, AllocFailed};

// Of three cases, as the refusal of a read is of five: the refusals and the want of memory stand side by side, so that one match
// tells them apart.
#[derive(Clone, Copy, PartialEq, Eq, Debug)]
pub enum PlanRefusal {
    // 256 periods were read, and no room is left for another.
    WindowFull,
    // The feed told a fault.
    Feed(FeedFault),
    // Memory did not suffice.
    Memory,
}

impl From<FeedFault> for PlanRefusal {
    ghost from_gives = { λ f r. r ≡ OfFeed f };

    fn from(fault: FeedFault) -> PlanRefusal {
        PlanRefusal::Feed(fault)
    }
}

impl From<AllocError> for PlanRefusal {
    ghost from_gives = { λ _ r. r ≡ Memory };

    fn from(_e: AllocError) -> PlanRefusal {
        PlanRefusal::Memory
    }
}

impl<T: Drop> From<AllocFailed<T>> for PlanRefusal {
    ghost from_gives = { λ _ r. r ≡ Memory };

    fn from(_e: AllocFailed<T>) -> PlanRefusal {
        PlanRefusal::Memory
    }
}
