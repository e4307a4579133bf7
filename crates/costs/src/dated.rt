ghost use Rattle.std.specs.Prelude.{◌≡◌, ◌<◌, ◌≤◌, ◌+◌, ◌*◌, ◌-◌, false, map, is_some};
ghost use Rattle.costs.specs.Dated.{dated_setup, dated_price, holding_before, lines_fault, line_at};
ghost use Rattle.costs.specs.Held.{dated_lawful};
ghost use Rattle.costs.specs.Told.{none_of};

pub mod making;

use crate::line::CostLine;
use crate::model::{CostModel, no_price};
use std::marker::Model;

// A line, and what it costs to hold a unit through all the periods before its date.
#[derive(Clone, Copy)]
struct HeldLine {
    line: CostLine,
    held: u64,
    ghost holding_fits: { line.holding ≤ 3000 },
    ghost held_fits: { held ≤ 3000 * line.date },
}

impl HeldLine {
    // What it costs to hold a unit through all the periods before p, where this line is in force from its date until then.
    fn held_before(&self, p: u32) -> u64
        requires { self.now.line.date ≤ p }
        ensures value { result ≡ self.now.held + self.now.line.holding * (p - self.now.line.date) }
        ensures fits { result ≤ 3000 * p }
    {
        self.held + self.line.holding * u64::from(p - self.line.date)
    }
}

// Costs that change from date to date. Asking takes a search among the dates and no walk over periods.
#[derive(Drop)]
pub struct DatedCosts {
    lines: Vec<HeldLine>,
    ghost right: { is_some (lines_fault (map (λ x. x.line) lines.items)) ≡ false },
}

impl Model for DatedCosts {
    ghost use Rattle.std.specs.Prelude.{map};
    ghost use Rattle.costs.specs.Shown.{Shown, Summed};

    ghost Value = { Shown };

    ghost view = { λ s. record { lines = map (λ x. x.line) s.lines.items; right = s.right } };

    ghost invariant = { λ s. Summed (map (λ x. x.line) s.lines.items) (map (λ x. x.held) s.lines.items) };
}

impl DatedCosts {
    // The line in force in period p. Where costs never change there is one line, and nothing to search: without this a price of one
    // line took twice as long.
    #[inline]
    fn in_force(&self, p: u32) -> &HeldLine
        requires { 1 ≤ p }
        ensures begun { result.now.line.date ≤ p }
        ensures line { result.now.line ≡ line_at self.now.lines p }
        ensures held { result.now.held + result.now.line.holding * (p - result.now.line.date) ≡ holding_before self.now.lines p }
    {
        match &self.lines[..] {
            [only] => only,
            _ => self.searched(p),
        }
    }

    // The same by a search. One copy of it serves all prices: with copies in line, calls over 64 lines and 500 periods took 5 to 17
    // of 100 longer.
    #[inline(never)]
    fn searched(&self, p: u32) -> &HeldLine
        requires { 1 ≤ p }
        ensures begun { result.now.line.date ≤ p }
        ensures line { result.now.line ≡ line_at self.now.lines p }
        ensures held { result.now.held + result.now.line.holding * (p - result.now.line.date) ≡ holding_before self.now.lines p }
    {
        // The first line is in force from the start.
        let later = self.lines[1..].partition_point(|x| x.line.date <= p);
        &self.lines[later]
    }
}

impl CostModel for DatedCosts {
    ghost K = { λ m. dated_setup m.lines };

    ghost V = { λ m. dated_price m.lines };

    ghost lawful = { λ m. dated_lawful m.lines (none_of _ m.right) };

    fn setup(&self, j: u32) -> Option<u64> {
        if j == 0 {
            return None;
        }
        Some(self.in_force(j).line.setup)
    }

    fn price(&self, j: u32, i: u32) -> Option<u64> {
        if no_price(j, i) {
            return None;
        }
        let made = self.in_force(j);
        let used = self.in_force(i);
        let held = used.held_before(i) - made.held_before(j);
        Some(made.line.unit + held)
    }
}
