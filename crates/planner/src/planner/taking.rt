// Taking the lots that are proved.
ghost use Rattle.std.specs.Prelude.{◌≡◌, ◌<◌, IfOk, OnErr};
ghost use Rattle.theory.specs.Series.{take_call};
ghost use Rattle.lots.specs.declared.lot.LotKind.TheVariants.{Frozen};
ghost use Rattle.planner.specs.Answers.{take_answer};
ghost use Rattle.planner.specs.Describing.{reading};
ghost use Rattle.planner.specs.Proving.{TellsProved};
ghost use Rattle.planner.specs.Tracking.{Follows};
ghost use Rattle.planner.specs.Windows.{window};

use crate::planner::Planner;
use crate::refusals::TakeRefusal;
use costs::CostModel;
use feeds::Feed;
use lots::{Lot, LotKind};

impl<F: Feed, M: CostModel> Planner<F, M> {
    // Gives away the lot that has become certain and makes its end the base. Another one may be certain at once.
    pub fn take(&mut self) -> Result<Lot, TakeRefusal>
        ensures follows { Follows F.Feed M.CostModel self.old take_call (take_answer result) self.new }
        ensures onward { IfOk result (λ y. (self.new.rows.base ≡ y.through) × (self.old.rows.base < y.through) × (reading (window self.new.rows) ≡ reading (window self.old.rows))) }
        ensures frozen { IfOk result (λ y. y.kind ≡ Frozen) }
        ensures feed { self.new.feed ≡ self.old.feed }
        ensures model { self.new.model ≡ self.old.model }
        ensures refused { OnErr result (self.new ≡ self.old) }
        ensures proved { TellsProved (window self.new.rows) self.new.proved }
    {
        let Some(span) = self.proved else {
            return Err(TakeRefusal::NoneProved);
        };
        let lot = self.rows.lot(LotKind::Frozen, span);
        self.rows.move_base(span.through);
        self.proved = self.rows.proved_span();
        Ok(lot)
    }
}
