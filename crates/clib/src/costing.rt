// The cost model that bytes describe.
ghost use Rattle.std.specs.Prelude.{◌≡◌, vec_items, IfOk};
ghost use Rattle.clib.specs.Outcomes.{Told};
ghost use Rattle.clib.specs.Costs.{line_of, lines_due, lines_of, costs_due};

use crate::error::PlanError;
use crate::groups::groups;
use crate::numbers::numbers;
use costs::{CostLine, DatedCosts};
use std::alloc::Global;

// The line that four numbers are: its date, setup charge, unit cost and holding cost. No `From`, which would have to stand in the
// crate of the line, where four numbers in a row mean nothing.
fn cost_line(numbers: [u32; 4]) -> CostLine
    ensures { result ≡ line_of numbers }
{
    let [date, setup, unit, holding] = numbers;
    CostLine {
        date,
        setup: u64::from(setup),
        unit: u64::from(unit),
        holding: u64::from(holding),
    }
}

// The lines that numbers are, four by four.
fn cost_lines(heap: Global, numbers: &[u32]) -> Result<Vec<CostLine>, PlanError>
    ensures { Told vec_items result (lines_due numbers.now) }
{
    let lines = groups(numbers)?;
    Ok(lines.iter().copied().map(cost_line).collect(heap)?)
}

// The model of the lines that the numbers in the bytes are.
pub fn costs(heap: Global, bytes: &[u8]) -> Result<DatedCosts, PlanError>
    ensures { Told lines_of result (costs_due bytes.now) }
{
    let numbers = numbers(heap, bytes)?;
    let lines = cost_lines(heap, &numbers)?;
    Ok(DatedCosts::new(heap, &lines)?)
}
