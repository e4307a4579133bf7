// What the next period's options cost, and which of them is chosen.
ghost use Rattle.std.specs.Prelude.{◌≡◌, ℕ, suc, ◌+◌, ◌*◌, ◌^◌, ◌<◌, ◌≤◌, length, slice_index};
ghost use Rattle.planner.specs.Describing.{Cheapest, rows_of, options_of};

use crate::rows::asked::Asked;
use crate::rows::row::Period;
use costs::CostModel;

// The cheapest option: what it costs, and its place among the options, their number for the next period's own.
#[derive(Clone, Copy)]
pub struct Choice {
    pub cost: u64,
    pub place: usize,
}

// Adds to each option from the first on what the next period's demand costs if it is made there, and chooses among them and
// the next period's own option. Ties go to the latest setup, so the walk goes back in time and only a cheaper option wins.
pub fn raise<M: CostModel>(
    periods: &mut [Period],
    first: usize,
    base: u32,
    own: u64,
    asked: &Asked<'_, M>,
) -> Choice
    requires short { length periods.old < 256 }
    requires next { asked.now.period ≡ suc (base + length periods.old) }
    requires begins { first ≤ length periods.old }
    requires fits { (k : ℕ) → first ≤ k → k < length periods.old → slice_index (options_of periods.old) k ≤ 2 ^ 60 }
    ensures rows { rows_of periods.new ≡ rows_of periods.old }
    ensures raised { (k : ℕ) → first ≤ k → k < length periods.old → slice_index (options_of periods.new) k ≡ slice_index (options_of periods.old) k + asked.now.demand * M.CostModel.V asked.now.model.now (suc (base + k)) (suc (base + length periods.old)) }
    ensures chosen { Cheapest (λ k. slice_index (options_of periods.old) k + asked.now.demand * M.CostModel.V asked.now.model.now (suc (base + k)) (suc (base + length periods.old))) first (length periods.old) own result.cost result.place }
{
    let mut best = Choice {
        cost: own,
        place: periods.len(),
    };
    // By place, since the library tells nothing of a slice after an adapter of `iter_mut`.
    for place in (first..periods.len()).rev() {
        let cost = periods[place].option + asked.made_in(base + place as u32 + 1);
        periods[place].option = cost;
        if cost < best.cost {
            best = Choice { cost, place };
        }
    }
    best
}
