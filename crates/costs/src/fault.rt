ghost use Rattle.std.specs.Prelude.{◌≡◌};
ghost use Rattle.std.specs.Result.{result_err};
ghost use Rattle.costs.specs.Constant.{cost_fault, fault_number};

use lots::Refusal;

// Why costs are refused: the first number that is out of its bounds.
#[derive(Clone, Copy, PartialEq, Eq, Debug)]
pub enum CostFault {
    // The setup charge is 0 or above 1,000,000,000.
    Setup = 1,
    // The unit cost is above 100,000.
    Unit,
    // The holding cost is above 3,000.
    Holding,
}

impl CostFault {
    // Whether these numbers are in their bounds; the first that is not is the fault. They come loose, as they do where a model is
    // made of them: a struct without bounds would be made only to be taken apart.
    pub fn check(setup: u64, unit: u64, holding: u64) -> Result<(), CostFault>
        ensures { result_err result ≡ cost_fault setup unit holding }
    {
        if !(1..=1_000_000_000).contains(&setup) {
            return Err(CostFault::Setup);
        }
        if unit > 100_000 {
            return Err(CostFault::Unit);
        }
        if holding > 3_000 {
            return Err(CostFault::Holding);
        }
        Ok(())
    }
}

impl Refusal for CostFault {
    ghost numbered = { fault_number };

    fn number(&self) -> u32 {
        *self as u32
    }
}
