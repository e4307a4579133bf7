// One call of a series, whichever it is.
ghost use Rattle.std.specs.Prelude.{◌≡◌};
ghost use Rattle.planner.specs.Answers.{call_of, answer_of, HandsOutFrozen};
ghost use Rattle.planner.specs.Proving.{TellsProved};
ghost use Rattle.planner.specs.Tracking.{Follows};
ghost use Rattle.planner.specs.Windows.{window};

use crate::calls::{Answer, Call};
use crate::planner::Planner;
use costs::CostModel;
use feeds::Feed;

impl<F: Feed, M: CostModel> Planner<F, M> {
    // Makes the call, and tells its answer.
    pub fn answer(&mut self, call: Call) -> Answer
        ensures follows { Follows F.Feed M.CostModel self.old (call_of call) (answer_of result) self.new }
        ensures frozen { HandsOutFrozen result }
        ensures model { self.new.model ≡ self.old.model }
        ensures proved { TellsProved (window self.new.rows) self.new.proved }
    {
        // Calls are data of a series, which lists them, and each gives an answer of another type; so they are matched.
        match call {
            Call::Read => Answer::Read(self.read()),
            Call::Take => Answer::Take(self.take()),
        }
    }
}
