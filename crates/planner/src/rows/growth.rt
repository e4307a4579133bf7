// How the rows grow by one period.
ghost use Rattle.std.specs.Prelude.{◌≡◌, ◌-◌, ◌<◌, ◌≤◌, length, IfOk};
ghost use Rattle.planner.specs.Describing.{row_after, reading, Grown};
ghost use Rattle.planner.specs.Windows.{window, empty};

use crate::rows::asked::Asked;
use crate::rows::options::raise;
use crate::rows::row::{Period, Row};
use crate::rows::{Rows, WINDOW};
use costs::CostModel;
use std::alloc::{AllocError, Global};

impl Rows {
    // Nothing read yet: the window begins at period 0.
    pub fn new(heap: Global) -> Result<Rows, AllocError>
        ensures { IfOk result (λ w. window w ≡ empty) }
    {
        Ok(Rows {
            base: 0,
            before: Row {
                demanded: 0,
                least: 0,
                last: 0,
            },
            periods: Vec::with_capacity(heap, WINDOW)?,
        })
    }

    // Where the window begins.
    pub fn base(&self) -> u32
        ensures { result ≡ self.now.base }
    {
        self.base
    }

    // How many periods lie beyond the base.
    pub fn len(&self) -> usize
        ensures { result ≡ length (window self.now).rows }
    {
        self.periods.len()
    }

    // How many periods were read.
    pub fn read(&self) -> u32
        ensures { result ≡ reading (window self.now) }
    {
        self.base + self.periods.len() as u32
    }

    // The row of a horizon of the window.
    pub fn at(&self, horizon: u32) -> Row
        requires from { self.now.base ≤ horizon }
        requires through { horizon ≤ reading (window self.now) }
        ensures { result ≡ row_after (window self.now) (horizon - self.now.base) }
    {
        match (horizon - self.base) as usize {
            0 => self.before,
            ahead => self.periods[ahead - 1].row,
        }
    }

    // Reads one more period. Only the options from the last setup on can win, since last setups never fall.
    pub fn push<M: CostModel>(&mut self, demand: u32, model: &M)
        requires small { demand ≤ 1000000 }
        requires narrow { length (window self.old).rows < 256 }
        requires few { reading (window self.old) < 10000 }
        ensures { Grown (M.CostModel.K model.now) (M.CostModel.V model.now) demand (window self.old) (window self.new) }
    {
        let base = self.base;
        let read = self.read();
        let newest = self.at(read);
        let asked = Asked {
            period: read + 1,
            demand,
            model,
        };
        let setup = newest.least + asked.setup();
        if demand == 0 {
            self.periods.push_reserved(Period {
                row: newest,
                option: setup,
            });
            return;
        }
        let own = setup + asked.made_in(asked.period);
        let first = newest.last.saturating_sub(1) - base;
        let choice = raise(&mut self.periods, first as usize, base, own, &asked);
        self.periods.push_reserved(Period {
            row: Row {
                demanded: newest.demanded + u64::from(demand),
                least: choice.cost,
                last: base + choice.place as u32 + 1,
            },
            option: own,
        });
    }
}
