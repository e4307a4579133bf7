// A whole forecast planned at once.
ghost use Rattle.planner.specs.Standing.{charges, forecast};
ghost use Rattle.planner.specs.Whole.{whole_plan, PlannedAs};

use crate::closed::Closed;
use crate::refusal::PlanRefusal;
use crate::rows::{Rows, WINDOW};
use costs::CostModel;
use feeds::Feed;
use lots::Lot;
use std::alloc::Global;

// The cheapest plan of everything that the feed hands out, as closing lots.
pub fn cheapest_plan<F: Feed + Drop, M: CostModel>(
    heap: Global,
    mut feed: F,
    model: &M,
) -> Result<Vec<Lot>, PlanRefusal>
    ensures { PlannedAs (whole_plan (charges M.CostModel model.now) (forecast F.Feed feed)) result }
{
    let mut rows = Rows::new(heap)?;
    while rows.len() < WINDOW {
        let Some(demand) = feed.next()? else {
            return Ok(Closed::new(feed, model, rows).empty(heap)?);
        };
        rows.push(demand, model);
    }
    Err(PlanRefusal::WindowFull)
}
