// Plans of the demands that a feed hands out, through layers of netting.
ghost use Rattle.std.specs.Prelude.{ℕ, suc, vec_items};
ghost use Rattle.clib.specs.Costs.{lines_of};
ghost use Rattle.clib.specs.Layers.{forecast_of, through};
ghost use Rattle.clib.specs.Outcomes.{Told, and_then};
ghost use Rattle.clib.specs.Plans.{terms_of, plan_due, file_due};

use crate::costing::costs;
use crate::error::{PlanError, Refusal};
use crate::numbers::numbers;
use crate::supply::Layer;
use costs::DatedCosts;
use feeds::Feed;
use lotfile::file;
use lots::Lot;
use planner::plan_forecast;
use std::alloc::Global;
use std::marker::PhantomData;

// The lots of all that the feed hands out.
fn plan_demands<F: Feed + Drop>(
    heap: Global,
    feed: F,
    model: DatedCosts,
) -> Result<Vec<Lot>, PlanError>
    ensures { Told terms_of result (plan_due (lines_of model) (forecast_of F.demands F.ending feed)) }
{
    let planned = plan_forecast(heap, feed, model)?;
    match planned.stop {
        None => Ok(planned.lots),
        Some(refusal) => Err(Refusal::Reading(refusal).into()),
    }
}

// A plan through at most so many layers. Each number of layers is a type, and has code of its own for each type of feed,
// so that no feed is chosen while the plan is made.
trait Through {
    ghost most: { ℕ };

    fn plan<F: Feed + Drop>(
        heap: Global,
        netting: &[u32],
        feed: F,
        model: DatedCosts,
    ) -> Result<Vec<Lot>, PlanError>
        ensures { Told terms_of result (and_then (through most netting.now (forecast_of F.demands F.ending feed)) (plan_due (lines_of model))) };
}

// No layer at all.
struct Plain;

// One layer more than `T` has at most.
struct OneMore<T>(PhantomData<T>);

impl Through for Plain {
    ghost most = { 0 };

    fn plan<F: Feed + Drop>(
        heap: Global,
        netting: &[u32],
        feed: F,
        model: DatedCosts,
    ) -> Result<Vec<Lot>, PlanError> {
        if !netting.is_empty() {
            return Err(Refusal::Layout.into());
        }
        plan_demands(heap, feed, model)
    }
}

impl<T: Through> Through for OneMore<T> {
    ghost most = { suc T.most };

    fn plan<F: Feed + Drop>(
        heap: Global,
        netting: &[u32],
        feed: F,
        model: DatedCosts,
    ) -> Result<Vec<Lot>, PlanError> {
        if netting.is_empty() {
            return plan_demands(heap, feed, model);
        }
        let (layer, rest) = Layer::split_first(heap, netting)?;
        T::plan(heap, rest, layer.over(feed)?, model)
    }
}

// The lot file of the plan, or why there is none.
#[tactic(auto, using(crate::proofs::Answering::filed_whole, crate::proofs::Answering::filed_error), unfolding(crate::specs::Plans::file_due))]
pub fn plan_file<F: Feed + Drop>(
    heap: Global,
    charges: &[u8],
    netting: &[u8],
    feed: F,
) -> Result<Vec<u8>, PlanError>
    ensures { Told vec_items result (file_due charges.now netting.now (forecast_of F.demands F.ending feed)) }
{
    let model = costs(heap, charges)?;
    let netting = numbers(heap, netting)?;
    let lots = <OneMore<OneMore<OneMore<Plain>>>>::plan(heap, &netting, feed, model)?;
    Ok(file(heap, &lots)?)
}
