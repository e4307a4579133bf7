ghost use Rattle.std.specs.Prelude.{◌≤◌};
ghost use Rattle.costs.specs.Constant.{constant_price};
ghost use Rattle.costs.specs.Constants.{constant_lawful};

use crate::model::{CostModel, no_price};

// The same costs in every period.
#[derive(Clone, Copy, PartialEq, Eq, Debug)]
pub struct ConstantCosts {
    pub setup: u64,
    pub unit: u64,
    pub holding: u64,
    ghost charged: { 1 ≤ setup },
    ghost setup_fits: { setup ≤ 1000000000 },
    ghost unit_fits: { unit ≤ 100000 },
    ghost holding_fits: { holding ≤ 3000 },
}

impl CostModel for ConstantCosts {
    ghost K = { λ m _. m.setup };

    ghost V = { λ m. constant_price m.unit m.holding };

    ghost lawful = { λ m. constant_lawful m.setup m.unit m.holding m.charged m.setup_fits m.unit_fits m.holding_fits };

    fn setup(&self, j: u32) -> Option<u64> {
        if j == 0 {
            return None;
        }
        Some(self.setup)
    }

    fn price(&self, j: u32, i: u32) -> Option<u64> {
        if no_price(j, i) {
            return None;
        }
        Some(self.unit + self.holding * u64::from(i - j))
    }
}
