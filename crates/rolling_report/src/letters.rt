// A series of calls as a word.
ghost use Rattle.std.specs.Prelude.{◌≡◌, IfOk};
ghost use Rattle.rolling_report.specs.Replaying.{call_of_letter, calls_of, calls_told};

use planner::Call;
use std::alloc::{AllocError, Global};

// The call that a letter stands for. It is no `TryFrom` for `Call`, which is a type of `planner`, where letters mean nothing:
// an impl of another crate's trait must name a type of its own crate.
fn call_of(letter: u8) -> Option<Call>
    ensures { result ≡ call_of_letter letter }
{
    match letter {
        b'r' => Some(Call::Read),
        b't' => Some(Call::Take),
        _ => None,
    }
}

// The calls that the letters r and t stand for, or none if there is another letter.
pub fn calls_of(heap: Global, letters: &[u8]) -> Result<Option<Vec<Call>>, AllocError>
    ensures { IfOk result (λ calls. calls_told calls ≡ calls_of letters.now) }
{
    // A loop, since what the library says of `collect` into an `Option` leaves open whether a `Some` has every call.
    let mut calls = Vec::new(heap);
    for letter in letters {
        let Some(call) = call_of(*letter) else {
            return Ok(None);
        };
        calls.push(call)?;
    }
    Ok(Some(calls))
}
