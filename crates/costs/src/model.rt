ghost use Rattle.std.specs.Prelude.{◌≡◌, ℕ};
ghost use Rattle.theory.specs.Recursion.{LawfulCosts};
ghost use Rattle.costs.specs.Asking.{setup_told, unpriced, price_told};

// What a cost model means: the setup charge `K j` of each period, and the price `V j i` of a unit made in j for use in i.
// Neither ever changes, and every model is lawful, so that all the theory holds of it.
pub trait CostModel {
    ghost K: { Self → ℕ → ℕ };

    ghost V: { Self → ℕ → ℕ → ℕ };

    fn setup(&self, j: u32) -> Option<u64>
        ensures { result ≡ setup_told (K self.now) j };

    fn price(&self, j: u32, i: u32) -> Option<u64>
        ensures { result ≡ price_told (V self.now) j i };

    ghost lawful: { (m : Self) → LawfulCosts (K m) (V m) };
}

// Whether no price is told for making in j and use in i.
pub(crate) fn no_price(j: u32, i: u32) -> bool
    ensures { result ≡ unpriced j i }
{
    j == 0 || i < j || i - j > 255
}
