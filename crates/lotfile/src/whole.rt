ghost use Rattle.std.specs.Prelude.{◌≡◌};
ghost use Rattle.lotfile.specs.Filing.{Filed};
ghost use Rattle.lots.specs.declared.failure.Failure.TheVariants.{Refused};

use crate::fault::WriteFault;
use crate::words::{end_bytes, lot_bytes};
use lots::{Failure, Lot};
use std::alloc::Global;

// Why there is no file: the lots are refused, or there was no memory for its bytes.
pub type FileError = Failure<WriteFault>;

// In each crate for its own refusal, as for dated costs.
impl From<WriteFault> for FileError {
    ghost from_gives = { λ fault r. r ≡ Refused fault };

    fn from(fault: WriteFault) -> FileError {
        Failure::Refused(fault)
    }
}

// The bytes of a file of these lots.
pub fn file(heap: Global, lots: &[Lot]) -> Result<Vec<u8>, FileError>
    ensures { Filed lots.now result }
{
    let end = end_bytes(lots.len())?;
    let mut out = Vec::with_capacity(heap, 24 * lots.len() + 4)?;
    for lot in lots {
        out.extend_from_slice(lot_bytes(*lot).as_flattened())?;
    }
    out.extend_from_slice(&end)?;
    Ok(out)
}
