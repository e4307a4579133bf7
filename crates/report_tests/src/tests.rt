// What the tests of both programs share: how inputs are made, and how answers are compared.
use reporting::{LotFileError, refusal_line};
use std::alloc::{AllocError, Global};
use std::process::Abort;
use std::test::Fail;

mod at_once;
mod parts;
mod rolling;

// The report of this input is this output. Tests pass a closure that calls the report, since a function of a private module of another
// crate cannot be passed itself.
fn prints<F: FnOnce(Global, &[u8]) -> Result<Vec<u8>, AllocError>>(
    rt: &(impl Abort + Alloc<A = Global>),
    report: F,
    input: &[u8],
    output: &[u8],
) -> Result<(), Fail>
    requires { F.IsAlwaysCallable report }
{
    let out = report(rt.alloc(), input)?;
    assert_eq!(rt; out.as_slice(), output);
    Ok(())
}

// Costs, and behind them a forecast of so many periods of one demand.
fn level(heap: Global, costs: &str, periods: u32, demand: u32) -> Result<String, AllocError> {
    let mut input = String::new(heap);
    writeln!(input, "{costs}")?;
    for period in 1..=periods {
        writeln!(input, "{period},{demand}")?;
    }
    writeln!(input, "end")?;
    Ok(input)
}

// The words behind the costs 10, 0 and 1.
fn ordered(heap: Global, words: &[u32]) -> Result<Vec<u8>, AllocError> {
    let mut input = Vec::from_slice(heap, b"10,0,1\n")?;
    for word in words {
        input.extend_from_slice(&word.to_be_bytes())?;
    }
    Ok(input)
}

// The report of these words behind those costs is this output.
fn words_print<F: FnOnce(Global, &[u8]) -> Result<Vec<u8>, AllocError>>(
    rt: &(impl Abort + Alloc<A = Global>),
    report: F,
    words: &[u32],
    output: &[u8],
) -> Result<(), Fail>
    requires { F.IsAlwaysCallable report }
{
    prints(rt, report, &ordered(rt.alloc(), words)?, output)
}

// The lot file of this input has these bytes.
fn files<F: FnOnce(Global, &[u8]) -> Result<Vec<u8>, LotFileError>>(
    rt: &(impl Abort + Alloc<A = Global>),
    lot_file: F,
    input: &[u8],
    output: &[u8],
) -> Result<(), Fail>
    requires { F.IsAlwaysCallable lot_file }
{
    match lot_file(rt.alloc(), input) {
        Ok(bytes) => {
            assert_eq!(rt; bytes.as_slice(), output);
            Ok(())
        }
        Err(LotFileError::Refused(_)) => Err(Fail::new("refused")),
        Err(LotFileError::NoMemory(error)) => Err(error.into()),
    }
}

// This input has no lot file, and the line says why.
fn files_nothing<F: FnOnce(Global, &[u8]) -> Result<Vec<u8>, LotFileError>>(
    rt: &(impl Abort + Alloc<A = Global>),
    lot_file: F,
    input: &[u8],
    line: &[u8],
) -> Result<(), Fail>
    requires { F.IsAlwaysCallable lot_file }
{
    match lot_file(rt.alloc(), input) {
        Ok(_) => Err(Fail::new("not refused")),
        Err(LotFileError::Refused(refusal)) => {
            let why = refusal_line(rt.alloc(), refusal)?;
            assert_eq!(rt; why.as_slice(), line);
            Ok(())
        }
        Err(LotFileError::NoMemory(error)) => Err(error.into()),
    }
}

// Inputs that both programs refuse before any lot is frozen.
fn refuses<F: FnOnce(Global, &[u8]) -> Result<Vec<u8>, AllocError> + Copy>(
    rt: &(impl Abort + Alloc<A = Global>),
    report: F,
) -> Result<(), Fail>
    requires { F.IsAlwaysCallable report }
{
    for (input, output) in [
        ("", "refused 26 at 0\n"),
        ("10,0,1", "refused 26 at 0\n"),
        ("10,0\nend\n", "refused 26 at 0\n"),
        ("10,00,1\nend\n", "refused 26 at 0\n"),
        ("10,12345678901,1\nend\n", "refused 26 at 0\n"),
        ("0,100001,3001\nend\n", "refused 1 at 0\n"),
        ("1000000001,0,0\nend\n", "refused 1 at 0\n"),
        ("1,100001,3001\n1,x\n", "refused 2 at 0\n"),
        ("1,0,9999999999\n1,x\n", "refused 3 at 0\n"),
        ("10,0,1\n1,4\n2,x\nend\n", "refused 9 at 4\n"),
        ("10,0,1\n1,4\n3,3\nend\n", "refused 10 at 4\n"),
        ("10,0,1\n1,1000001\nend\n", "refused 11 at 0\n"),
        ("10,0,1\n1,4\n", "refused 12 at 4\n"),
        ("10,0,1\nend\n1,4\n", "refused 13 at 4\n"),
    ] {
        prints(rt, report, input.as_bytes(), output.as_bytes())?;
    }
    Ok(())
}

// Words that both programs answer alike, as no lot of theirs is frozen.
fn answers_orders<F: FnOnce(Global, &[u8]) -> Result<Vec<u8>, AllocError> + Copy>(
    rt: &(impl Abort + Alloc<A = Global>),
    report: F,
) -> Result<(), Fail>
    requires { F.IsAlwaysCallable report }
{
    let two = [0x8000_0001, 7, 0x4000_0002, 0x8000_0002, 0xC000_0002];
    words_print(rt, report, &two, b"closing 1 2 5 10 2\ntotal 10\n")?;
    words_print(rt, report, &[0xC000_0000], b"total 0\n")?;
    words_print(rt, report, &[], b"refused 12 at 0\n")?;
    words_print(rt, report, &[0x8000_0002], b"refused 10 at 0\n")?;
    words_print(rt, report, &[0x8000_0001, 1_000_001], b"refused 11 at 4\n")
}

fn refuses_orders<F: FnOnce(Global, &[u8]) -> Result<Vec<u8>, AllocError> + Copy>(
    rt: &(impl Abort + Alloc<A = Global>),
    report: F,
) -> Result<(), Fail>
    requires { F.IsAlwaysCallable report }
{
    words_print(rt, report, &[0xC000_0000, 0], b"refused 13 at 4\n")?;
    words_print(rt, report, &[7], b"refused 15 at 0\n")?;
    words_print(
        rt,
        report,
        &[0x8000_0001, 7, 0x4000_0008],
        b"refused 16 at 8\n",
    )?;
    words_print(
        rt,
        report,
        &[0x8000_0001, 0xC000_0002],
        b"refused 17 at 4\n",
    )?;
    prints(rt, report, b"10,0,1\n\x80\0\0\x01\0", b"refused 14 at 4\n")
}

// An input of 65,536 bytes is read, and one byte more is too many.
fn takes_65536_bytes<F: FnOnce(Global, &[u8]) -> Result<Vec<u8>, AllocError> + Copy>(
    rt: &(impl Abort + Alloc<A = Global>),
    report: F,
) -> Result<(), Fail>
    requires { F.IsAlwaysCallable report }
{
    let mut input = vec![in rt.alloc(); b'1'; 65_536]?;
    prints(rt, report, &input, b"refused 26 at 0\n")?;
    input.push(b'\n')?;
    prints(rt, report, &input, b"refused 27 at 0\n")
}
