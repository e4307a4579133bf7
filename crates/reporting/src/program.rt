// What both programs do with their input and their errors.
ghost use Rattle.std.specs.Prelude.{◌≡◌, take, IfOk, IfSome};
ghost use Rattle.std.specs.Io.KnownBytes.{Appends};
ghost use Rattle.std.specs.Process.{exit_status};

use crate::costing::LONGEST;
use std::alloc::Global;
use std::io;
use std::io::{Read, Write};
use std::process::ExitCode;

// The bytes of an input. Of one that is too long a single byte too many is read, which is enough to see that.
pub fn read_input<R: Read + Drop>(heap: Global, from: R) -> io::Result<Vec<u8>>
    ensures { IfOk result (λ v. IfSome (R.remaining from) (λ bs. v.items ≡ take 65537 bs)) }
{
    let mut input = Vec::new(heap);
    from.take(LONGEST as u64 + 1).read_to_end(&mut input)?;
    Ok(input)
}

// The status of a failure, once the writer was told why.
pub fn fail<W: Write>(errors: &mut W, why: &[u8]) -> io::Result<ExitCode>
    ensures { IfOk result (λ code. (exit_status code ≡ 1) × Appends (W.contents errors.old) (W.contents errors.new) why.now) }
{
    errors.write_all(why)?;
    Ok(ExitCode::FAILURE)
}
