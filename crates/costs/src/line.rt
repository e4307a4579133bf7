ghost use Rattle.costs.specs.Constant.{cost_fault};

use crate::fault::CostFault;
use lots::DatedLine;

// The costs from one date on: of a setup, of making a unit, and of holding a unit for a period.
#[derive(Clone, Copy, PartialEq, Eq, Debug)]
pub struct CostLine {
    pub date: u32,
    pub setup: u64,
    pub unit: u64,
    pub holding: u64,
}

impl DatedLine for CostLine {
    type Fault = CostFault;

    ghost dated = { λ x. x.date };

    ghost earned = { λ x. cost_fault x.setup x.unit x.holding };

    fn date(&self) -> u32 {
        self.date
    }

    fn fault(&self) -> Option<CostFault> {
        CostFault::check(self.setup, self.unit, self.holding).err()
    }
}
