// The rolling planner: it reads one period after another and freezes each lot as soon as it is proved.
ghost use Rattle.planner.specs.Proving.{TellsProved};
ghost use Rattle.planner.specs.Windows.{window};

use crate::rows::Rows;
use crate::rows::row::Span;
use std::marker::Model;

mod calling;
mod closing;
mod reading;
mod taking;

#[derive(Drop)]
pub struct Planner<F, M> {
    feed: F,
    model: M,
    rows: Rows,
    // The lot that is proved now, if any.
    proved: Option<Span>,
    ghost right: { TellsProved (window rows) proved },
}

// Callers see where it stands, and that the lot that is kept is always the one that the rows prove.
impl<F, M> Model for Planner<F, M> {
    ghost use Rattle.planner.specs.Standing.{Standing};

    ghost Value = { Standing F M };

    ghost view = { λ p. record { feed = p.feed; model = p.model; rows = p.rows; proved = p.proved; right = p.right } };
}
