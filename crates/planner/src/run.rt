// Running a whole series of calls. The law of whole runs stands on this call's contract.
ghost use Rattle.std.specs.Prelude.{IfOk};
ghost use Rattle.planner.specs.Runs.{Obeys, RanAll};
ghost use Rattle.planner.specs.Standing.{charges, forecast};

use crate::calls::{Call, Entry};
use crate::planner::Planner;
use crate::series::Series;
use costs::CostModel;
use feeds::Feed;
use std::alloc::{AllocError, Global};

// Opens a planner, makes the calls in their order, refused ones among them, and then closes and empties it.
pub fn run_series<F: Feed + Drop, M: CostModel + Drop>(
    heap: Global,
    feed: F,
    model: M,
    calls: &[Call],
) -> Result<Series, AllocError>
    ensures law { IfOk result (λ s. Obeys (charges M.CostModel model) (forecast F.Feed feed) calls.now s) }
    ensures due { IfOk result (λ s. RanAll (charges M.CostModel model) (forecast F.Feed feed) s.entries.items) }
{
    let mut planner = Planner::open(heap, feed, model)?;
    let mut entries = Vec::new(heap);
    for call in calls {
        entries.push(Entry {
            call: *call,
            answer: planner.answer(*call),
        })?;
    }
    let closing = planner.close().empty(heap)?;
    Ok(Series { entries, closing })
}
