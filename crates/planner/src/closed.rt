// A closed planner reads no more; it only hands out the rest of its plan.
ghost use Rattle.std.specs.Prelude.{◌≤◌};

use crate::rows::Rows;
use std::marker::Model;

mod resting;

#[derive(Drop)]
pub struct Closed<F, M> {
    feed: F,
    model: M,
    rows: Rows,
    // The end of the last lot handed out.
    after: u32,
    ghost onward: { rows.base ≤ after },
}

// Callers see what is left; lots are handed out from the base on.
impl<F, M> Model for Closed<F, M> {
    ghost use Rattle.planner.specs.Standing.{Leaving};

    ghost Value = { Leaving F M };

    ghost view = { λ p. record { feed = p.feed; model = p.model; rows = p.rows; after = p.after; onward = p.onward } };
}
