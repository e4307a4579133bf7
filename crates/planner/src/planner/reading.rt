// Opening a planner and reading into it.
ghost use Rattle.std.specs.Prelude.{◌≡◌, ◌≤◌, suc, IfOk, IfErr, OnErr, OnOk};
ghost use Rattle.theory.specs.Series.{period_limit, read_call};
ghost use Rattle.planner.specs.Answers.{read_answer};
ghost use Rattle.planner.specs.Describing.{reading};
ghost use Rattle.planner.specs.Proving.{TellsProved};
ghost use Rattle.planner.specs.Tracking.{Follows};
ghost use Rattle.planner.specs.Windows.{window, empty};

use crate::planner::Planner;
use crate::refusals::ReadRefusal;
use crate::rows::{LONGEST, Rows, WINDOW};
use costs::CostModel;
use feeds::Feed;
use std::alloc::{AllocFailed, Global};

impl<F: Feed, M: CostModel> Planner<F, M> {
    // A planner that has read nothing yet; where memory does not suffice, feed and model come back. Feed and model come
    // apart, as callers have them, and the allocator by itself, as in every call that allocates.
    pub fn open(heap: Global, feed: F, model: M) -> Result<Planner<F, M>, AllocFailed<(F, M)>>
        ensures made { IfOk result (λ p. (p.feed ≡ feed) × (p.model ≡ model) × (window p.rows ≡ empty) × (p.proved ≡ None)) }
        ensures refused { IfErr result (λ y. y.value ≡ (feed, model)) }
    {
        let Ok(rows) = Rows::new(heap) else {
            return Err(AllocFailed {
                value: (feed, model),
            });
        };
        Ok(Planner {
            feed,
            model,
            rows,
            proved: None,
        })
    }

    // Asks the feed for one more period; the answer says if some lot has become certain.
    pub fn read(&mut self) -> Result<bool, ReadRefusal>
        ensures follows { Follows F.Feed M.CostModel self.old read_call (read_answer result) self.new }
        ensures onward { OnOk result ((self.new.rows.base ≡ self.old.rows.base) × (reading (window self.new.rows) ≡ suc (reading (window self.old.rows))) × (reading (window self.new.rows) ≤ period_limit)) }
        ensures model { self.new.model ≡ self.old.model }
        ensures refused { OnErr result (self.new ≡ self.old) }
        ensures proved { TellsProved (window self.new.rows) self.new.proved }
    {
        if self.proved.is_some() {
            return Err(ReadRefusal::LotWaits);
        }
        if self.rows.len() >= WINDOW {
            return Err(ReadRefusal::WindowFull);
        }
        if self.rows.read() >= LONGEST {
            return Err(ReadRefusal::LimitReached);
        }
        let Some(demand) = self.feed.next()? else {
            return Err(ReadRefusal::FeedEnded);
        };
        self.rows.push(demand, &self.model);
        self.proved = self.rows.proved_span();
        Ok(self.proved.is_some())
    }
}
