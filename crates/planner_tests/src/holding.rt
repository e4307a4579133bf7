// What whoever is handed a planner knows of it, whatever was called before: the checks of these contracts are the test.
ghost use Rattle.std.specs.Prelude.{◌≤◌};
ghost use Rattle.planner.specs.Proving.{TellsProved};
ghost use Rattle.planner.specs.Windows.{window};

use planner::{Closed, Planner};

// The lot that waits is the one that the rows prove.
pub fn the_lot_that_waits_is_proved<F, M>(p: &Planner<F, M>)
    ensures { TellsProved (window p.now.rows) p.now.proved }
{}

// What is left begins at the base or behind it.
pub fn what_is_left_begins_at_the_base<F, M>(p: &Closed<F, M>)
    ensures { p.now.rows.base ≤ p.now.after }
{}
