// What is printed of a plan, or of a refusal in its place.
ghost use Rattle.std.specs.Prelude.{◌≡◌, ◌^◌, ◌<◌, ◌++◌, map, string_bytes, IfOk, OnOk};
ghost use Rattle.lots.specs.Lots.{terms};
ghost use Rattle.reporting.specs.Planning.{input_plan, plan_told, total_cost};
ghost use Rattle.reporting.specs.Printing.{lot_lines, last_line, plan_lines, printed_plan};
ghost use Rattle.reporting.specs.Lines.{line_of_refusal};
ghost use Rattle.reporting.specs.Refusals.{refusal_number, refusal_place};

use crate::costing::costs_of;
use crate::lines::{LotLine, RefusalLine, TotalLine};
use crate::planning::Planning;
use crate::refusal::Refusal;
use feeds::{ByteFeed, Format};
use lots::{Lot, Refusal as _};
use planner::Planned;
use std::alloc::{AllocError, Global};

impl From<Refusal> for RefusalLine {
    ghost from_gives = { λ r l. (l.number ≡ refusal_number r) × (l.place ≡ refusal_place r) };

    fn from(refusal: Refusal) -> RefusalLine {
        RefusalLine {
            number: refusal.number(),
            place: refusal.place(),
        }
    }
}

// Writes a line for each lot.
pub fn write_lots(out: &mut String, lots: &[Lot]) -> Result<(), AllocError>
    ensures { OnOk result (string_bytes out.new ≡ string_bytes out.old ++ lot_lines (map terms lots.now)) }
{
    for lot in lots {
        write!(out, "{}", LotLine(*lot))?;
    }
    Ok(())
}

// The line of a refusal.
pub fn refusal_line(heap: Global, refusal: Refusal) -> Result<Vec<u8>, AllocError>
    ensures { IfOk result (λ v. v.items ≡ line_of_refusal (refusal_number refusal) (refusal_place refusal)) }
{
    Ok(RefusalLine::from(refusal).to_string(heap)?.into_bytes())
}

// The lines of a plan: its lots, and then the total, or in its place why the demands were not read to their end.
fn print_plan(heap: Global, planned: &Planned) -> Result<Vec<u8>, AllocError>
    requires { total_cost (plan_told planned.now).lots < 2 ^ 64 }
    ensures { IfOk result (λ v. v.items ≡ plan_lines (plan_told planned.now)) }
{
    let mut out = String::new(heap);
    write_lots(&mut out, &planned.lots)?;
    match planned.stop {
        None => {
            let total = planned.lots.iter().map(|lot| lot.cost).sum();
            write!(out, "{}", TotalLine(total))?;
        }
        Some(refusal) => write!(out, "{}", RefusalLine::from(Refusal::Read(refusal)))?,
    }
    Ok(out.into_bytes())
}

// What is printed for an input: the lines of its plan, or the line of the refusal in its place.
pub fn print_input<F: Format, P: Planning>(
    heap: Global,
    input: &[u8],
) -> Result<Vec<u8>, AllocError>
    ensures { IfOk result (λ v. v.items ≡ printed_plan (input_plan P.due (λ text. F.forecast text 0 0) input.now)) }
{
    match costs_of(input) {
        Ok(costs) => {
            let planned = P::plan(
                heap,
                ByteFeed::<F>::new(&input[costs.length..]),
                costs.model,
            )?;
            print_plan(heap, &planned)
        }
        Err(refusal) => refusal_line(heap, refusal),
    }
}
