// The first line of the input: the costs of a constant model.
ghost use Rattle.std.specs.Prelude.{◌≡◌, ◌≤◌, length, IfSome};
ghost use Rattle.reporting.specs.CostLines.{cost_line_of};

use lots::decimal::{Numeral, field};

// The setup charge, the unit cost and the holding cost that the line names, and how many bytes it takes: a sum of the lengths
// that the readers of numbers tell.
#[derive(Clone, Copy, PartialEq, Eq, Debug)]
pub struct CostLine {
    pub setup: u64,
    pub unit: u64,
    pub holding: u64,
    pub length: usize,
}

// The cost line at the front of the text, if it has the layout of one.
pub fn cost_line_at(text: &[u8]) -> Option<CostLine>
    ensures told { result ≡ cost_line_of text.now }
    ensures within { IfSome result (λ l. l.length ≤ length text.now) }
{
    let Numeral {
        value: setup,
        length: first,
    } = field(text, 10, b',')?;
    let text = &text[first..];
    let Numeral {
        value: unit,
        length: second,
    } = field(text, 10, b',')?;
    let Numeral {
        value: holding,
        length: third,
    } = field(&text[second..], 10, b'\n')?;
    Some(CostLine {
        setup,
        unit,
        holding,
        length: first + second + third,
    })
}
