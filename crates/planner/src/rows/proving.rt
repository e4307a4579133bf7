// Which lot the rows prove: the one that every horizon of the regeneration set has next.
ghost use Rattle.planner.specs.Proving.{TellsProved};
ghost use Rattle.planner.specs.Windows.{window};

use crate::rows::Rows;
use crate::rows::row::Span;

impl Rows {
    // The span of the lot that is proved now. Whatever is still to come, every later plan passes through one of the horizons
    // from the last setup less one to the last period read; where all of them have the same next lot, nothing can change it.
    pub fn proved_span(&self) -> Option<Span>
        ensures { TellsProved (window self.now) result }
    {
        let base = self.base;
        let read = self.read();
        let last = self.at(read).last;
        if last == 0 {
            return None;
        }
        let span = self.next_span(read, base)?;
        (last - 1..read)
            .all(|horizon| self.next_span(horizon, base) == Some(span))
            .then_some(span)
    }
}
