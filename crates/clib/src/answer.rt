// What the caller is told, and what is written for it.
ghost use Rattle.std.specs.Prelude.{◌≡◌, ℕ, List, Err, vec_items, Result};
ghost use Rattle.clib.specs.Answers.{Answered, answer_of, error_answer};
ghost use Rattle.clib.specs.Outcomes.{Told};

use crate::error::{PlanError, Refusal};
use lotfile::WriteFault;
use lots::Refusal as Numbered;

// What `refusal` holds where memory was wanting.
pub const NO_MEMORY: u32 = u32::MAX;

// A number says how a call ended, and no enum, since callers in C read it by the layout of `include/wirthedol.h`.
#[repr(C)]
#[derive(Clone, Copy)]
pub struct Answer {
    // 0 where the plan was written, or else the number of the refusal.
    pub refusal: u32,
    // The byte of the demands at which they were refused, or 0.
    pub place: u64,
    // How many bytes were written.
    pub written: u64,
}

impl From<Refusal> for Answer {
    ghost from_gives = { λ f r. r ≡ answer_of (Err f) };

    fn from(refusal: Refusal) -> Answer {
        Answer {
            refusal: refusal.number(),
            place: refusal.place() as u64,
            written: 0,
        }
    }
}

impl From<PlanError> for Answer {
    ghost from_gives = { λ e r. r ≡ error_answer e };

    fn from(error: PlanError) -> Answer {
        match error {
            PlanError::Refused(refusal) => refusal.into(),
            PlanError::NoMemory => Answer {
                refusal: NO_MEMORY,
                place: 0,
                written: 0,
            },
        }
    }
}

// Writes the file to the front of `out`, if there is one and it fits.
#[tactic(auto, using(crate::proofs::Answering::handed_error, crate::proofs::Answering::handed_no_room, crate::proofs::Answering::handed_whole))]
pub fn hand_over(file: Result<Vec<u8>, PlanError>, out: &mut [u8]) -> Answer
    ensures { (due : Result (List ℕ) Refusal) → Told vec_items file due → Answered out.old due result out.new }
{
    let bytes = match file {
        Ok(bytes) => bytes,
        Err(error) => return error.into(),
    };
    let written = bytes.len();
    if written > out.len() {
        return Refusal::Writing(WriteFault::NoRoom).into();
    }
    out[..written].copy_from_slice(&bytes);
    Answer {
        refusal: 0,
        place: 0,
        written: written as u64,
    }
}
