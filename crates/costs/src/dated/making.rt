ghost use Rattle.std.specs.Prelude.{◌≡◌, map, IfOk, None};
ghost use Rattle.costs.specs.Dated.{lines_fault};
ghost use Rattle.costs.specs.Shown.{Summed};
ghost use Rattle.costs.specs.DatedMaking.{Made};
ghost use Rattle.lots.specs.declared.failure.Failure.TheVariants.{Refused};

use crate::dated::{DatedCosts, HeldLine};
use crate::line::CostLine;
use crate::lines::{DatedCostsFault, check_lines};
use lots::Failure;
use std::alloc::{AllocError, Global};

// Why dated costs were not made: the lines are refused, or there was no memory to keep them.
pub type DatedCostsError = Failure<DatedCostsFault>;

// In each crate for its own refusal: one for every refusal would overlap with that of `AllocError`.
impl From<DatedCostsFault> for DatedCostsError {
    ghost from_gives = { λ f r. r ≡ Refused f };

    fn from(fault: DatedCostsFault) -> DatedCostsError {
        Failure::Refused(fault)
    }
}

// Each line, with what it costs to hold a unit through all the periods before its date. A loop and no chain, since each sum stands on the one before it.
fn held_lines(heap: Global, lines: &[CostLine]) -> Result<Vec<HeldLine>, AllocError>
    requires { lines_fault lines.now ≡ None }
    ensures lines { IfOk result (λ v. map (λ x. x.line) v.items ≡ lines.now) }
    ensures held { IfOk result (λ v. Summed lines.now (map (λ x. x.held) v.items)) }
{
    let mut held_lines: Vec<HeldLine> = Vec::with_capacity(heap, lines.len())?;
    for line in lines {
        let held = match held_lines.last() {
            Some(last) => last.held_before(line.date),
            None => 0,
        };
        held_lines.push(HeldLine { line: *line, held })?;
    }
    Ok(held_lines)
}

impl DatedCosts {
    // The model of these lines, which are copied.
    pub fn new(heap: Global, lines: &[CostLine]) -> Result<DatedCosts, DatedCostsError>
        ensures { Made lines.now result }
    {
        check_lines(lines)?;
        Ok(DatedCosts {
            lines: held_lines(heap, lines)?,
        })
    }
}
