// The costs that an input is planned at.
ghost use Rattle.std.specs.Prelude.{◌≡◌, ◌≤◌, length, IfOk};
ghost use Rattle.reporting.specs.Costing.{costs_told, costs_due};

use crate::cost_line::cost_line_at;
use crate::refusal::Refusal;
use costs::ConstantCosts;

// The model that the first line of an input names, and how many bytes that line takes. Their count and not the bytes behind them, so
// that the costs borrow nothing: the input may change, or be let go, while they are kept.
#[derive(Clone, Copy)]
pub struct Costs {
    pub model: ConstantCosts,
    pub length: usize,
}

// How many bytes an input has at most.
pub const LONGEST: usize = 65_536;

// The costs of the input's first line, or why there are none.
pub fn costs_of(input: &[u8]) -> Result<Costs, Refusal>
    ensures told { costs_told input.now result ≡ costs_due input.now }
    ensures within { IfOk result (λ c. c.length ≤ length input.now) }
{
    if input.len() > LONGEST {
        return Err(Refusal::TooLong);
    }
    let line = cost_line_at(input).ok_or(Refusal::OtherLayout)?;
    let model = ConstantCosts::new(line.setup, line.unit, line.holding)?;
    Ok(Costs {
        model,
        length: line.length,
    })
}
