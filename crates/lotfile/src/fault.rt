ghost use Rattle.lotfile.specs.Writing.{write_number};

use lots::Refusal;

// Why nothing is written.
#[derive(Clone, Copy, PartialEq, Eq, Debug)]
pub enum WriteFault {
    // Too few bytes follow the place.
    NoRoom,
    // There are more than 10,000 lots.
    TooMany,
}

impl Refusal for WriteFault {
    ghost numbered = { write_number };

    fn number(&self) -> u32 {
        match self {
            WriteFault::NoRoom => 25,
            WriteFault::TooMany => 25,
        }
    }
}
