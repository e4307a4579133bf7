// Decimal numbers: read from the front of a text, and written behind one.
ghost use Rattle.std.specs.Prelude.{◌≡◌, ◌++◌, Some, IfSome, is_ok, if◌then◌else◌, decimal};
ghost use Rattle.lots.specs.Decimals.{number_at, field_at, Bounded, ReadsBack};

use itoa::Buffer;
use std::alloc::AllocError;
use std::fmt;

// A number that was read, and how many bytes of the text were read for it. Their count and not the text behind them, since a
// feed adds it to the place that its faults tell.
#[derive(Clone, Copy, PartialEq, Eq, Debug)]
pub struct Numeral {
    pub value: u64,
    pub length: usize,
}

// So many digits always fit 64 bits.
const MOST_DIGITS: usize = 19;

// The number at the front of the text: at most `most` digits, never above 19, with no leading zero. One walk counts the digits and
// adds them up; a walk for each takes two to three times as long, and every number of a forecast text is read here.
pub fn number(text: &[u8], most: usize) -> Option<Numeral>
    ensures told { result ≡ number_at most text.now }
    ensures bounded { IfSome result (Bounded most text.now) }
{
    let mut value = 0;
    let mut length = 0;
    for byte in text {
        if !byte.is_ascii_digit() {
            break;
        }
        if length >= most.min(MOST_DIGITS) {
            return None;
        }
        value = value * 10 + u64::from(byte - b'0');
        length += 1;
    }
    if length == 0 {
        return None;
    }
    if length > 1 && text[0] == b'0' {
        return None;
    }
    Some(Numeral { value, length })
}

// The number right in front of the byte `stop`; its length counts that byte too.
#[tactic(auto, unfolding(crate::specs::Decimals::field_at))]
pub fn field(text: &[u8], most: usize, stop: u8) -> Option<Numeral>
    ensures told { result ≡ field_at most stop text.now }
    ensures bounded { IfSome result (Bounded most text.now) }
{
    let Numeral { value, length } = number(text, most)?;
    if text.get(length) != Some(&stop) {
        return None;
    }
    Some(Numeral {
        value,
        length: length + 1,
    })
}

// What `push_decimal` writes, `number` reads back.
pub fn written_numbers_read_back()
    ensures { ReadsBack }
{}

// A number as it is printed: the programs write every number of a line by it.
#[derive(Clone, Copy)]
pub struct Decimal(pub u64);

impl fmt::Display for Decimal {
    ghost output = { λ d. Some (decimal d.0) };

    fn fmt<W: fmt::Write>(&self, f: &mut fmt::Formatter<W>) -> fmt::Result {
        let mut buffer = Buffer::new();
        f.write_str(buffer.format(self.0))
    }
}

// Writes the number behind what is there; where memory does not suffice, nothing is written.
pub fn push_decimal(out: &mut Vec<u8>, n: u64) -> Result<(), AllocError>
    ensures { out.new.items ≡ (if is_ok result then out.old.items ++ decimal n else out.old.items) }
{
    let mut buffer = Buffer::new();
    out.extend_from_slice(buffer.format(n).as_bytes())
}
