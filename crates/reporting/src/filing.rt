// The lot file of an input's plan.
ghost use Rattle.std.specs.Prelude.{◌≡◌, ◌≤◌, map, length, IfOk};
ghost use Rattle.lots.specs.Lots.{terms};
ghost use Rattle.lotfile.specs.LotWords.{file_bytes};
ghost use Rattle.reporting.specs.LotFiles.{file_of_plan, FiledAs};
ghost use Rattle.reporting.specs.Planning.{input_plan};
ghost use Rattle.lots.specs.declared.failure.Failure.TheVariants.{Refused};

use crate::costing::costs_of;
use crate::planning::Planning;
use crate::refusal::Refusal;
use feeds::{ByteFeed, Format};
use lotfile::file;
use lots::{Failure, Lot};
use std::alloc::{AllocError, Global};

// Why there is no lot file: the input is refused, or memory did not suffice.
pub type LotFileError = Failure<Refusal>;

// In each crate for its own refusal, as for dated costs.
impl From<Refusal> for LotFileError {
    ghost from_gives = { λ r e. e ≡ Refused r };

    fn from(refusal: Refusal) -> LotFileError {
        Failure::Refused(refusal)
    }
}

// The lot file of no more lots than a file may hold. Its error is no `From` of `LotFileError`: too many lots are no refusal of
// an input, as no plan has so many.
fn file_of(heap: Global, lots: &[Lot]) -> Result<Vec<u8>, AllocError>
    requires { length lots.now ≤ 10000 }
    ensures { IfOk result (λ v. v.items ≡ file_bytes (map terms lots.now)) }
{
    match file(heap, lots) {
        Ok(bytes) => Ok(bytes),
        Err(Failure::NoMemory(error)) => Err(error),
        Err(Failure::Refused(_)) => unreachable(),
    }
}

// The lot file of an input's plan.
pub fn file_input<F: Format, P: Planning>(
    heap: Global,
    input: &[u8],
) -> Result<Vec<u8>, LotFileError>
    ensures { FiledAs (file_of_plan (input_plan P.due (λ text. F.forecast text 0 0) input.now)) result }
{
    let costs = costs_of(input)?;
    let planned = P::plan(
        heap,
        ByteFeed::<F>::new(&input[costs.length..]),
        costs.model,
    )?;
    if let Some(refusal) = planned.stop {
        return Err(LotFileError::Refused(Refusal::Read(refusal)));
    }
    // A plan fits, so a file holds its lots.
    Ok(file_of(heap, &planned.lots)?)
}
