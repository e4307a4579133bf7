// Why a planner's call is refused. A feed's fault lies whole inside the refusal of a read.
ghost use Rattle.std.specs.Prelude.{◌≡◌};
ghost use Rattle.planner.specs.Refusals.{read_number, take_number, rest_number};
ghost use Rattle.planner.specs.declared.refusals.ReadRefusal.TheVariants.{Feed as OfFeed};

use feeds::FeedFault;
use lots::Refusal;

#[derive(Clone, Copy, PartialEq, Eq, Debug)]
pub enum ReadRefusal {
    // A proved lot waits to be taken.
    LotWaits,
    // 256 periods lie beyond the base.
    WindowFull,
    // 10,000 periods were read.
    LimitReached,
    // The feed is at its end.
    FeedEnded,
    // The feed told a fault.
    Feed(FeedFault),
}

impl From<FeedFault> for ReadRefusal {
    ghost from_gives = { λ f r. r ≡ OfFeed f };

    fn from(fault: FeedFault) -> ReadRefusal {
        ReadRefusal::Feed(fault)
    }
}

impl Refusal for ReadRefusal {
    ghost numbered = { read_number };

    fn number(&self) -> u32 {
        match self {
            ReadRefusal::LotWaits => 18,
            ReadRefusal::WindowFull => 19,
            ReadRefusal::LimitReached => 20,
            ReadRefusal::FeedEnded => 21,
            ReadRefusal::Feed(_) => 22,
        }
    }
}

// An enum though it has one case, as the rest's has: callers match it as they match the refusal of a read.
#[derive(Clone, Copy, PartialEq, Eq, Debug)]
pub enum TakeRefusal {
    // No lot is proved.
    NoneProved = 23,
}

impl Refusal for TakeRefusal {
    ghost numbered = { take_number };

    fn number(&self) -> u32 {
        *self as u32
    }
}

#[derive(Clone, Copy, PartialEq, Eq, Debug)]
pub enum RestRefusal {
    // No lot is left.
    NoneLeft = 24,
}

impl Refusal for RestRefusal {
    ghost numbered = { rest_number };

    fn number(&self) -> u32 {
        *self as u32
    }
}
