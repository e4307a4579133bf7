ghost use Rattle.std.specs.Prelude.{◌≡◌};
ghost use Rattle.costs.specs.Making.{outcome, due};

use crate::constant::ConstantCosts;
use crate::fault::CostFault;

impl ConstantCosts {
    // The model of a setup charge, a unit cost and a holding cost; the first of them that is out of bounds is refused.
    // They come loose, for this call is where loose numbers become a model.
    pub fn new(setup: u64, unit: u64, holding: u64) -> Result<ConstantCosts, CostFault>
        ensures { outcome result ≡ due setup unit holding }
    {
        CostFault::check(setup, unit, holding)?;
        Ok(ConstantCosts {
            setup,
            unit,
            holding,
        })
    }
}
