// Closing a planner and emptying it.
ghost use Rattle.std.specs.Prelude.{◌≡◌, ◌<◌, ◌≤◌, IfOk, OnErr};
ghost use Rattle.std.specs.List.{AllByRecursion};
ghost use Rattle.std.proofs.Math.Nat.{le_refl};
ghost use Rattle.lots.specs.declared.lot.LotKind.TheVariants.{Closing};
ghost use Rattle.planner.specs.Describing.{reading};
ghost use Rattle.planner.specs.Resting.{rest_after, MovedOn, TellsRest, EmptiesTo};
ghost use Rattle.planner.specs.Windows.{window};

use crate::closed::Closed;
use crate::refusals::RestRefusal;
use crate::rows::Rows;
use lots::{Lot, LotKind};
use std::alloc::{AllocError, Global};

impl<F, M> Closed<F, M> {
    // What is left of the rows' plan is all that is handed out.
    pub(crate) fn new(feed: F, model: M, rows: Rows) -> Closed<F, M>
        ensures { result ≡ record { feed = feed; model = model; rows = rows; after = rows.base; onward = le_refl rows.base } }
    {
        let after = rows.base();
        Closed {
            feed,
            model,
            rows,
            after,
        }
    }

    // Hands out, as closing, the next lot of the plan of all periods read.
    pub fn rest(&mut self) -> Result<Lot, RestRefusal>
        ensures due { TellsRest (window self.old.rows) self.old.after result }
        ensures closing { IfOk result (λ y. y.kind ≡ Closing) }
        ensures onward { IfOk result (λ y. (self.old.after < y.through) × (y.through ≤ reading (window self.old.rows))) }
        ensures left { MovedOn self.old (rest_after result self.old.after) self.new }
        ensures refused { OnErr result (self.new ≡ self.old) }
        ensures within { self.new.rows.base ≤ self.new.after }
    {
        let Some(span) = self.rows.next_span(self.rows.read(), self.after) else {
            return Err(RestRefusal::NoneLeft);
        };
        self.after = span.through;
        Ok(self.rows.lot(LotKind::Closing, span))
    }

    // Hands out all that is left.
    pub fn empty(&mut self, heap: Global) -> Result<Vec<Lot>, AllocError>
        ensures rests { IfOk result (λ v. EmptiesTo (window self.old.rows) self.old.after v.items) }
        ensures closing { IfOk result (λ v. AllByRecursion (λ y. y.kind ≡ Closing) v.items) }
        ensures within { self.new.rows.base ≤ self.new.after }
    {
        let mut lots = Vec::new(heap);
        while let Ok(lot) = self.rest() {
            lots.push(lot)?;
        }
        Ok(lots)
    }

    // Gives feed and model back.
    pub fn finish(self) -> (F, M)
        ensures { result ≡ (self.feed, self.model) }
    {
        let Closed {
            feed,
            model,
            rows: _,
            after: _,
        } = self;
        (feed, model)
    }
}
