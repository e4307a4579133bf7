// How the window moves on once a lot is handed out.
ghost use Rattle.std.specs.Prelude.{◌≡◌, ◌-◌, ◌≤◌, length};
ghost use Rattle.planner.specs.Describing.{row_after, moved_to};
ghost use Rattle.planner.specs.Windows.{window};

use crate::rows::Rows;

impl Rows {
    // Makes the end of a lot the base, and frees the rows up to it.
    pub fn move_base(&mut self, through: u32)
        requires onward { self.old.base ≤ through }
        requires inside { through ≤ (row_after (window self.old) (length (window self.old).rows)).last - 1 }
        ensures { window self.new ≡ moved_to through (window self.old) }
    {
        let freed = (through - self.base) as usize;
        self.before = self.at(through);
        self.base = through;
        self.periods.drain(..freed);
    }
}
