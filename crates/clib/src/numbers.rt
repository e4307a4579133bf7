// Numbers of 32 bits, four bytes each, the most significant first.
ghost use Rattle.std.specs.Prelude.{vec_items};
ghost use Rattle.clib.specs.Outcomes.{Told};
ghost use Rattle.clib.specs.Numbers.{numbers_due};

use crate::error::PlanError;
use crate::groups::groups;
use std::alloc::Global;

// The numbers that bytes are, four by four.
pub fn numbers(heap: Global, bytes: &[u8]) -> Result<Vec<u32>, PlanError>
    ensures { Told vec_items result (numbers_due bytes.now) }
{
    let words = groups(bytes)?;
    Ok(words.iter().copied().map(u32::from_be_bytes).collect(heap)?)
}
