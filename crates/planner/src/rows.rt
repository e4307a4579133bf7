// The rows of a window of horizons, from the base to the last period read.
ghost use Rattle.std.specs.Prelude.{◌+◌, ◌≤◌, vec_len, vec_capacity};
ghost use Rattle.planner.specs.Describing.{Sound, window_from};

mod asked;
mod growth;
mod moving;
mod options;
mod plans;
mod proving;
pub mod row;

use crate::rows::row::{Period, Row};

// How many periods beyond the base the window holds.
pub const WINDOW: usize = 256;

// How many periods a planner reads at most.
pub const LONGEST: u32 = 10_000;

// Contracts see the fields, and `window` reads them. A view would forget the buffer, and a refused call promises that all is
// as it was.
#[derive(Drop)]
pub struct Rows {
    base: u32,
    // The row of the base, and then the periods after it.
    before: Row,
    periods: Vec<Period>,
    ghost few: { base + vec_len periods ≤ 10000 },
    ghost narrow: { vec_len periods ≤ 256 },
    ghost room: { 256 ≤ vec_capacity periods },
    ghost sound: { ∥ Sound (window_from base before periods.items) ∥₁ },
}
