// What a program can be asked to make of its input.
ghost use Rattle.std.specs.Prelude.{◌≡◌};
ghost use Rattle.std.specs.Result.{result_ok};
ghost use Rattle.reporting.specs.Modes.{mode_named};

use std::str::FromStr;

#[derive(Clone, Copy, PartialEq, Eq, Debug)]
pub enum Mode {
    // The plan of a forecast text, in lines.
    Forecast,
    // The plan of order words, in lines.
    Orders,
    // The plan of a forecast text, as a lot file.
    File,
}

// A word that names no mode.
#[derive(Clone, Copy, PartialEq, Eq, Debug)]
pub struct UnknownMode;

// No word names the plan of a forecast text: it is what a program makes if it is not asked for more.
impl FromStr for Mode {
    type Err = UnknownMode;

    ghost from_str_gives = { λ word r. result_ok r ≡ mode_named word };

    fn from_str(word: &str) -> Result<Mode, UnknownMode> {
        match word {
            "orders" => Ok(Mode::Orders),
            "file" => Ok(Mode::File),
            _ => Err(UnknownMode),
        }
    }
}
