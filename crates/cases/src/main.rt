// Answers the cases of standard input one behind the other: each is a header line and then its input.
// compare/README.md has the framing.
#![tactic(auto)]

ghost use Rattle.std.specs.Prelude.{◌<◌, length, IfSome};
ghost use Rattle.std.specs.Iterator.{at_most};

use lots::decimal::{Numeral, number};
use rolling_report::{
    LotFileError, calls_of, lot_file, refusal_line, replay, report, report_orders,
};
use std::alloc::{AllocError, Global};
use std::io;
use std::io::{Read, Write};

// What a case asks to make of its input. A mode has a word here for every one, `plain` too, and words are bytes, so it is not
// the programs' mode, and no word is an error, so it is no `TryFrom`.
#[derive(Clone, Copy)]
enum Mode {
    Plain,
    Orders,
    File,
    Replay,
}

impl Mode {
    // The mode that the first word of a header line names; the word ends in its space.
    fn of(word: &[u8]) -> Option<Mode> {
        match word {
            b"plain " => Some(Mode::Plain),
            b"orders " => Some(Mode::Orders),
            b"file " => Some(Mode::File),
            b"replay " => Some(Mode::Replay),
            _ => None,
        }
    }
}

// A case as it stands in the input: its header line, the calls in it, and its own input behind the line.
#[derive(Clone, Copy)]
struct Case<'a> {
    mode: Mode,
    header: &'a [u8],
    letters: &'a [u8],
    input: &'a [u8],
}

impl Case<'_> {
    fn answer(self, heap: Global) -> Result<Vec<u8>, AllocError> {
        // Matched, since the modes take and give different things.
        match self.mode {
            Mode::Plain => report(heap, self.input),
            Mode::Orders => report_orders(heap, self.input),
            Mode::File => match lot_file(heap, self.input) {
                Ok(bytes) => hex_line(heap, bytes),
                Err(LotFileError::Refused(refusal)) => refusal_line(heap, refusal),
                Err(LotFileError::NoMemory(error)) => Err(error),
            },
            Mode::Replay => match calls_of(heap, self.letters)? {
                Some(calls) => replay(heap, &calls, self.input),
                // No letters of calls: nothing is answered, so that the output differs.
                None => Ok(Vec::new(heap)),
            },
        }
    }
}

// Bytes as a line of hexadecimal digits.
fn hex_line(heap: Global, bytes: Vec<u8>) -> Result<Vec<u8>, AllocError> {
    let mut line = hex::encode(heap, bytes)?;
    line.push('\n')?;
    Ok(line.into_bytes())
}

// The cases of a text, one behind the other, and what of it they have not taken.
#[derive(Drop)]
struct Cases<'a> {
    rest: &'a [u8],
}

impl<'a> Iterator for Cases<'a> {
    type Item = Case<'a>;

    ghost remaining = { λ s. at_most (length s.rest.now) };

    fn next(&mut self) -> Option<Case<'a>> {
        let (header, behind) = split_after(self.rest, b'\n')?;
        let (word, numbers) = split_after(header, b' ')?;
        let mode = Mode::of(word)?;
        let Numeral { value, length } = number(numbers, 7)?;
        let letters = letters_of(numbers.get(length..)?);
        let (input, others) = behind.split_at_checked(usize::try_from(value).ok()?)?;
        self.rest = others;
        Some(Case {
            mode,
            header,
            letters,
            input,
        })
    }
}

// A text up to and with the first such byte, and the text behind.
fn split_after(text: &[u8], byte: u8) -> Option<(&[u8], &[u8])>
    ensures { IfSome result (λ parts. length parts.1.now < length text.now) }
{
    let at = text.iter().position(|&b| b == byte)?;
    Some(text.split_at(at + 1))
}

// The letters of a replay, from behind the length to the end of the header line.
fn letters_of(text: &[u8]) -> &[u8] {
    let text = text.strip_prefix(b" ").unwrap_or(text);
    text.strip_suffix(b"\n").unwrap_or(text)
}

fn main(rt: HostRuntime) -> io::Result<()> {
    let heap = rt.alloc();
    let mut all = Vec::new(heap);
    rt.stdin().read_to_end(&mut all)?;
    let mut cases = Cases { rest: &all };
    for case in &mut cases {
        let bytes = case.answer(heap)?;
        rt.stdout().write_all(case.header)?;
        rt.stdout().write_all(&bytes)?;
    }
    // Whatever is no case is shown, so that the output differs.
    rt.stdout().write_all(cases.rest)
}
