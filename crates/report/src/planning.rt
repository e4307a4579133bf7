// Planning the whole forecast at once.
ghost use Rattle.std.specs.Prelude.{◌≡◌};
ghost use Rattle.report.specs.Planning.{plan_due, stopped_at};
ghost use Rattle.report.specs.Fitting.{plan_fits};
ghost use Rattle.reporting.specs.Planning.{plan_told};

use costs::CostModel;
use feeds::Feed;
use lots::Lot;
use planner::{PlanRefusal, Planned, ReadRefusal, cheapest_plan};
use reporting::Planning;
use std::alloc::{AllocError, Global};

// The cheapest plan of all demands, in closing lots.
pub struct AtOnce;

impl Planning for AtOnce {
    ghost due = { plan_due };

    ghost fits = { plan_fits };

    fn plan<F: Feed + Drop, M: CostModel + Drop>(
        heap: Global,
        feed: F,
        model: M,
    ) -> Result<Planned, AllocError> {
        match cheapest_plan(heap, feed, &model) {
            Ok(lots) => Ok(Planned { lots, stop: None }),
            Err(PlanRefusal::WindowFull) => Ok(stopped(heap, ReadRefusal::WindowFull)),
            Err(PlanRefusal::Feed(fault)) => Ok(stopped(heap, ReadRefusal::Feed(fault))),
            Err(PlanRefusal::Memory) => Err(AllocError),
        }
    }
}

// No lot at all, and why.
fn stopped(heap: Global, refusal: ReadRefusal) -> Planned
    ensures { plan_told result ≡ stopped_at refusal }
{
    Planned {
        lots: Vec::new(heap),
        stop: Some(refusal),
    }
}
