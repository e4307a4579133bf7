// Why an input gets no plan, or not the whole of it.
ghost use Rattle.std.specs.Prelude.{◌≡◌};
ghost use Rattle.reporting.specs.Refusals.{refusal_number, refusal_place};
ghost use Rattle.reporting.specs.declared.refusal.Refusal.TheVariants.{Costs as OfCosts};

use costs::CostFault;
use lots::Refusal as Numbered;
use planner::ReadRefusal;

#[derive(Clone, Copy, PartialEq, Eq, Debug)]
pub enum Refusal {
    // The input has more than 65,536 bytes.
    TooLong,
    // The first line is not a cost line.
    OtherLayout,
    // The cost line names costs out of bounds.
    Costs(CostFault),
    // The planner could not read the demands to their end.
    Read(ReadRefusal),
}

// A feed's fault tells its own number and place. The library for C has refusals of its own that do the same: two methods of the
// refusal of a read, with definitions, contracts and edits, would save a line each.
impl Numbered for Refusal {
    ghost numbered = { refusal_number };

    fn number(&self) -> u32 {
        match self {
            Refusal::TooLong => 27,
            Refusal::OtherLayout => 26,
            Refusal::Costs(fault) => fault.number(),
            Refusal::Read(ReadRefusal::Feed(fault)) => fault.number(),
            Refusal::Read(refusal) => refusal.number(),
        }
    }
}

impl Refusal {
    // The byte at which the demands are wrong, counted from the first byte behind the cost line; 0 for every other refusal.
    pub fn place(self) -> usize
        ensures { result ≡ refusal_place self }
    {
        match self {
            Refusal::Read(ReadRefusal::Feed(fault)) => fault.place(),
            _ => 0,
        }
    }
}

impl From<CostFault> for Refusal {
    ghost from_gives = { λ f r. r ≡ OfCosts f };

    fn from(refused: CostFault) -> Refusal {
        Refusal::Costs(refused)
    }
}
