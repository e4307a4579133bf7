// Planning a forecast as it is read.
ghost use Rattle.rolling_report.specs.Planning.{plan_due};
ghost use Rattle.rolling_report.specs.Fitting.{plan_fits};

use costs::CostModel;
use feeds::Feed;
use planner::{Planned, plan_forecast};
use reporting::Planning;
use std::alloc::{AllocError, Global};

// Each lot is frozen as soon as it is proved, and the end of the demands closes the rest.
pub struct Rolling;

impl Planning for Rolling {
    ghost due = { plan_due };

    ghost fits = { plan_fits };

    fn plan<F: Feed + Drop, M: CostModel + Drop>(
        heap: Global,
        feed: F,
        model: M,
    ) -> Result<Planned, AllocError> {
        plan_forecast(heap, feed, model)
    }
}
