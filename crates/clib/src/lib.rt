// The planner for callers in C and Rust: a plan from bytes to the bytes of a lot file.
#![tactic(auto)]

ghost use Rattle.feeds.specs.Orders.{orders};
ghost use Rattle.feeds.specs.Text.{forecast};
ghost use Rattle.clib.specs.Answers.{Answered};
ghost use Rattle.clib.specs.Plans.{file_due};

pub mod answer;
mod costing;
pub mod error;
mod groups;
mod numbers;
mod planning;
mod supply;

use crate::answer::{Answer, hand_over};
use crate::planning::plan_file;
use feeds::{OrderFeed, TextFeed};
use std::alloc::Global;

// C has no generic functions, so each kind of demands has a call of its own, which names its feed and no more.

// Plans a forecast text; its lot file goes to the front of `out`.
#[unsafe(no_mangle)]
pub extern "C" fn wirthedol_plan_text(
    heap: Global,
    costs: &[u8],
    netting: &[u8],
    demands: &[u8],
    out: &mut [u8],
) -> Answer
    ensures { Answered out.old (file_due costs.now netting.now (forecast 0 0 demands.now)) result out.new }
{
    hand_over(plan_file(heap, costs, netting, TextFeed::new(demands)), out)
}

// Plans order words in the same way.
#[unsafe(no_mangle)]
pub extern "C" fn wirthedol_plan_orders(
    heap: Global,
    costs: &[u8],
    netting: &[u8],
    demands: &[u8],
    out: &mut [u8],
) -> Answer
    ensures { Answered out.old (file_due costs.now netting.now (orders demands.now 0 0)) result out.new }
{
    hand_over(
        plan_file(heap, costs, netting, OrderFeed::new(demands)),
        out,
    )
}
