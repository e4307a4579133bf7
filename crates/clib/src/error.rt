// Why there is no plan.
ghost use Rattle.std.specs.Prelude.{◌≡◌};
ghost use Rattle.clib.specs.Refusals.{refusal_number, refusal_place};
ghost use Rattle.clib.specs.Outcomes.{of_costs, of_file};
ghost use Rattle.clib.specs.declared.error.PlanError.TheVariants.{Refused as ThatIsRefused, NoMemory as WithoutMemory};
ghost use Rattle.clib.specs.declared.error.Refusal.TheVariants.{Netting as OfNetting};

use costs::{DatedCostsError, DatedCostsFault};
use feeds::{NettingFault, NettingRefused};
use lotfile::{FileError, WriteFault};
use lots::Refusal as Numbered;
use planner::ReadRefusal;
use std::alloc::AllocError;

// Why a plan is refused.
#[derive(Clone, Copy, PartialEq, Eq, Debug)]
pub enum Refusal {
    // The bytes of the costs or of the netting have another layout.
    Layout,
    // The cost lines make no model.
    Costs(DatedCostsFault),
    // The stock or the receipts of a layer are refused.
    Netting(NettingFault),
    // The demands could not be read to their end.
    Reading(ReadRefusal),
    // The lot file cannot be written.
    Writing(WriteFault),
}

// A feed's fault tells its own number and place, as in the programs' refusals: two methods of the refusal of a read would save a line
// each.
impl Numbered for Refusal {
    ghost numbered = { refusal_number };

    fn number(&self) -> u32 {
        match self {
            Refusal::Layout => 26,
            Refusal::Costs(fault) => fault.number(),
            Refusal::Netting(fault) => fault.number(),
            Refusal::Reading(ReadRefusal::Feed(fault)) => fault.number(),
            Refusal::Reading(refusal) => refusal.number(),
            Refusal::Writing(fault) => fault.number(),
        }
    }
}

impl Refusal {
    // The byte of the demands that is wrong; 0 for every other refusal.
    pub fn place(self) -> usize
        ensures { result ≡ refusal_place self }
    {
        match self {
            Refusal::Reading(ReadRefusal::Feed(fault)) => fault.place(),
            _ => 0,
        }
    }
}

// No plan: it is refused, or memory was wanting. An enum of its own, since `?` makes the errors of the crates below into it, and
// `From` of one `Failure` for another is an orphan impl here, which the language refuses.
#[derive(Clone, Copy, PartialEq, Eq, Debug)]
pub enum PlanError {
    Refused(Refusal),
    NoMemory,
}

impl From<Refusal> for PlanError {
    ghost from_gives = { λ f r. r ≡ ThatIsRefused f };

    fn from(refusal: Refusal) -> PlanError {
        PlanError::Refused(refusal)
    }
}

impl From<AllocError> for PlanError {
    ghost from_gives = { λ _ r. r ≡ WithoutMemory };

    fn from(_error: AllocError) -> PlanError {
        PlanError::NoMemory
    }
}

impl From<DatedCostsError> for PlanError {
    ghost from_gives = { λ e r. r ≡ of_costs e };

    fn from(error: DatedCostsError) -> PlanError {
        match error {
            DatedCostsError::Refused(fault) => PlanError::Refused(Refusal::Costs(fault)),
            DatedCostsError::NoMemory(_) => PlanError::NoMemory,
        }
    }
}

impl<F: Drop> From<NettingRefused<F>> for PlanError {
    ghost from_gives = { λ e r. r ≡ ThatIsRefused (OfNetting e.fault) };

    fn from(refused: NettingRefused<F>) -> PlanError {
        PlanError::Refused(Refusal::Netting(refused.fault))
    }
}

impl From<FileError> for PlanError {
    ghost from_gives = { λ e r. r ≡ of_file e };

    fn from(error: FileError) -> PlanError {
        match error {
            FileError::Refused(fault) => PlanError::Refused(Refusal::Writing(fault)),
            FileError::NoMemory(_) => PlanError::NoMemory,
        }
    }
}
