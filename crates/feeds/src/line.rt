// One line of a forecast text.
ghost use Rattle.std.specs.Prelude.{◌≡◌, IfSome};
ghost use Rattle.feeds.specs.Text.{line_at, front_of};
ghost use Rattle.feeds.specs.Lines.{LineFits};

use lots::decimal::{Numeral, field};

// The period and the demand that a line names, and how many bytes it takes, which are added to the place of the next line.
#[derive(Clone, Copy, PartialEq, Eq, Debug)]
pub struct Line {
    pub period: u32,
    pub demand: u32,
    pub length: usize,
}

// The line at the front of the text, if it has the layout of one.
#[tactic(auto, unfolding(crate::specs::Text::line_at))]
pub fn line_at(text: &[u8]) -> Option<Line>
    ensures told { result ≡ line_at text.now }
    ensures fits { IfSome result (LineFits text.now) }
{
    let Numeral {
        value: period,
        length: first,
    } = field(text, 7, b',')?;
    let Numeral {
        value: demand,
        length: second,
    } = field(&text[first..], 7, b'\n')?;
    Some(Line {
        period: period as u32,
        demand: demand as u32,
        length: first + second,
    })
}

// What bytes begin with: nothing at all, the end line with nothing or with more behind it, or something else.
#[derive(Clone, Copy, PartialEq, Eq, Debug)]
pub enum Front {
    Nothing,
    End,
    EndAndMore,
    Other,
}

// A function of its own: with `line_at` called under these patterns the last one is reached in eight ways, and its proof did not
// close.
pub fn look_at(rest: &[u8]) -> Front
    ensures { result ≡ front_of rest.now }
{
    match rest {
        [] => Front::Nothing,
        [b'e', b'n', b'd', b'\n'] => Front::End,
        [b'e', b'n', b'd', b'\n', ..] => Front::EndAndMore,
        _ => Front::Other,
    }
}
