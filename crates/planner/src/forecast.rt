// A whole forecast planned period by period: every proved lot is taken before the next read.
ghost use Rattle.std.specs.Prelude.{map, IfOk};
ghost use Rattle.lots.specs.Lots.{terms};
ghost use Rattle.planner.specs.Freezing.{FrozenAll};
ghost use Rattle.planner.specs.Rolling.{RolledOut};
ghost use Rattle.planner.specs.Standing.{charges, forecast};

use crate::planner::Planner;
use crate::refusals::ReadRefusal;
use costs::CostModel;
use feeds::Feed;
use lots::Lot;
use std::alloc::{AllocError, Global};

// The lots in order, the frozen ones first, and what kept the forecast from being read to its end, if anything did.
#[derive(Drop)]
pub struct Planned {
    pub lots: Vec<Lot>,
    pub stop: Option<ReadRefusal>,
}

// Freezes lot after lot while the feed lasts; at its end the rest of the plan follows as closing lots.
pub fn plan_forecast<F: Feed + Drop, M: CostModel + Drop>(
    heap: Global,
    feed: F,
    model: M,
) -> Result<Planned, AllocError>
    ensures { IfOk result (λ p. RolledOut (charges M.CostModel model) (forecast F.Feed feed) (map terms p.lots.items) p.stop) }
{
    let mut planner = Planner::open(heap, feed, model)?;
    let mut lots = Vec::new(heap);
    match freeze_all(&mut planner, &mut lots)? {
        ReadRefusal::FeedEnded => {
            let mut closing = planner.close().empty(heap)?;
            lots.append(&mut closing)?;
            Ok(Planned { lots, stop: None })
        }
        refusal => Ok(Planned {
            lots,
            stop: Some(refusal),
        }),
    }
}

// Reads and takes until a read is refused, and tells why.
fn freeze_all<F: Feed, M: CostModel>(
    planner: &mut Planner<F, M>,
    lots: &mut Vec<Lot>,
) -> Result<ReadRefusal, AllocError>
    ensures { IfOk result (λ refusal. FrozenAll F.Feed M.CostModel planner.old lots.old.items refusal lots.new.items planner.new) }
{
    loop {
        match planner.take() {
            Ok(lot) => lots.push(lot)?,
            Err(_) => {
                if let Err(refusal) = planner.read() {
                    return Ok(refusal);
                }
            }
        }
    }
}
