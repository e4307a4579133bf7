// Closing a planner.
ghost use Rattle.std.specs.Prelude.{◌≡◌};
ghost use Rattle.std.proofs.Math.Nat.{le_refl};

use crate::closed::Closed;
use crate::planner::Planner;

impl<F, M> Planner<F, M> {
    // No more is read: what is left of the plan can be handed out.
    pub fn close(self) -> Closed<F, M>
        ensures { result ≡ record { feed = self.feed; model = self.model; rows = self.rows; after = self.rows.base; onward = le_refl self.rows.base } }
    {
        let Planner {
            feed,
            model,
            rows,
            proved: _,
        } = self;
        Closed::new(feed, model, rows)
    }
}
