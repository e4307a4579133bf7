// What is asked of the next period.
ghost use Rattle.std.specs.Prelude.{◌≡◌, ◌+◌, ◌*◌, ◌≤◌};

use costs::CostModel;

// A period's demand, and the costs of making it.
#[derive(Drop)]
pub struct Asked<'a, M> {
    pub period: u32,
    pub demand: u32,
    pub model: &'a M,
    ghost begun: { 1 ≤ period },
    ghost small: { demand ≤ 1000000 },
}

impl<M: CostModel> Asked<'_, M> {
    // The charge of a setup in the period.
    pub fn setup(&self) -> u64
        ensures is { result ≡ M.CostModel.K self.now.model.now self.now.period }
        ensures fits { result ≤ 1000000000 }
    {
        self.model.setup(self.period).unwrap()
    }

    // What the demand costs if it is made in this period or before.
    pub fn made_in(&self, made: u32) -> u64
        requires begun { 1 ≤ made }
        requires ahead { made ≤ self.now.period }
        requires near { self.now.period ≤ made + 255 }
        ensures is { result ≡ self.now.demand * M.CostModel.V self.now.model.now made self.now.period }
        ensures fits { result ≤ 1000000000000 }
    {
        u64::from(self.demand) * self.model.price(made, self.period).unwrap()
    }
}
