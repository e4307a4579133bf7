// How demands are planned is a parameter of all that prints or files a plan.
ghost use Rattle.std.specs.Prelude.{◌≡◌, IfOk};
ghost use Rattle.theory.specs.Recursion.{LawfulCosts};
ghost use Rattle.feeds.specs.Feeding.{Small};
ghost use Rattle.feeds.specs.Forecasts.{Forecast};
ghost use Rattle.planner.specs.Standing.{Charges, charges, forecast};
ghost use Rattle.reporting.specs.Planning.{Plan, plan_told, Fits};

use costs::CostModel;
use feeds::Feed;
use planner::Planned;
use std::alloc::{AllocError, Global};

// A way to plan: the plan due of any forecast at any charges, which is small enough to be printed and filed.
pub trait Planning {
    ghost due: { Charges → Forecast → Plan };

    fn plan<F: Feed + Drop, M: CostModel + Drop>(
        heap: Global,
        feed: F,
        model: M,
    ) -> Result<Planned, AllocError>
        ensures { IfOk result (λ p. plan_told p ≡ due (charges M.CostModel model) (forecast F.Feed feed)) };

    ghost fits: { (c : Charges) (all : Forecast) → LawfulCosts c.K c.V → Small all.demands → Fits (due c all) };
}
