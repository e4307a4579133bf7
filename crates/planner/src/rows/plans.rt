// The plan of a horizon, read back from the rows.
ghost use Rattle.std.specs.Prelude.{◌≡◌, ◌<◌, ◌≤◌};
ghost use Rattle.std.specs.Option.{option_map};
ghost use Rattle.theory.specs.Recursion.{plan, lot};
ghost use Rattle.theory.specs.Regeneration.{next as next_lot};
ghost use Rattle.lots.specs.Lots.{terms};
ghost use Rattle.lots.specs.declared.lot.LotKind.TheVariants.{Frozen};
ghost use Rattle.planner.specs.Describing.{reading, InEachCase};
ghost use Rattle.planner.specs.Lots.{span_of, handed, SpansIf, Spans};
ghost use Rattle.planner.specs.Windows.{window};

use crate::rows::Rows;
use crate::rows::row::Span;
use lots::{Lot, LotKind};

impl Rows {
    // The first lot of the horizon's plan that begins after a period: the horizon's own last lot, unless the plan before
    // that one has such a lot already.
    pub fn next_span(&self, horizon: u32, after: u32) -> Option<Span>
        requires from { self.now.base ≤ after }
        requires through { horizon ≤ reading (window self.now) }
        ensures means { InEachCase (window self.now) (λ c. result ≡ option_map span_of (next_lot after (plan c horizon))) }
        ensures spans { SpansIf (window self.now) after result }
    {
        if horizon <= after {
            return None;
        }
        let last = self.at(horizon).last;
        if last <= after {
            return None;
        }
        self.next_span(last - 1, after).or(Some(Span {
            from: last,
            through: horizon,
        }))
    }

    // The lot of a span, as it is handed out now: what it serves and what it costs are the differences of two rows.
    pub fn lot(&self, kind: LotKind, span: Span) -> Lot
        requires spans { Spans (window self.now) self.now.base span }
        requires settled { kind ≡ Frozen → span.through < reading (window self.now) }
        ensures kind { result.kind ≡ kind }
        ensures through { result.through ≡ span.through }
        ensures means { InEachCase (window self.now) (λ c. terms result ≡ handed kind (reading (window self.now)) (lot c span.from span.through)) }
    {
        let before = self.at(span.from - 1);
        let end = self.at(span.through);
        Lot {
            kind,
            from: span.from,
            through: span.through,
            amount: (end.demanded - before.demanded) as u32,
            cost: end.least - before.least,
            evidence: self.read(),
        }
    }
}
