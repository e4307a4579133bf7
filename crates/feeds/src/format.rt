// A feed over bytes, whatever format its forecast is written in.
ghost use Rattle.std.specs.Prelude.{◌≡◌, ℕ, ◌+◌, ◌<◌, ◌≤◌, List, length, IfSome, IfOk};
ghost use Rattle.feeds.specs.Feeding.{Small};
ghost use Rattle.feeds.specs.Forecasts.{Forecast, goes_further};
ghost use Rattle.feeds.specs.Periods.{PeriodFits};

use crate::cursor::Cursor;
use crate::fault::{FeedFault, RecordFault};
use crate::feed::Feed;
use crate::period::Period;
use std::marker::PhantomData;

// How a forecast is written as bytes.
pub trait Format {
    // The forecast that the bytes are from a place on, once so many periods were handed out.
    ghost forecast: { List ℕ → ℕ → ℕ → Forecast };

    // The most periods that can be written.
    ghost most: { ℕ };

    // The record at the cursor: a period, or none where the forecast ends.
    fn read(at: &Cursor<'_>) -> Result<Option<Period>, RecordFault>
        ensures told { forecast at.now.text.now at.now.place at.now.handed ≡ goes_further (λ p. p.demand) result (λ p. forecast at.now.text.now p.next (at.now.handed + 1)) }
        ensures fits { IfOk result (λ o. IfSome o (PeriodFits most at.now.place at.now.handed (length at.now.text.now))) };

    // No demand is above the largest.
    ghost small: { (text : List ℕ) (place handed : ℕ) → Small (forecast text place handed).demands };

    ghost few: { most < 1073741824 };
}

// The caller's bytes as far as they were read, in the format F.
#[derive(Debug, Drop)]
pub struct ByteFeed<'a, F: Format> {
    at: Cursor<'a>,
    format: PhantomData<F>,
    ghost few: { at.handed ≤ F.most },
}

impl<'a, F: Format> ByteFeed<'a, F> {
    // The whole forecast that the bytes are.
    pub fn new(text: &'a [u8]) -> ByteFeed<'a, F>
        ensures whole { F.forecast result.at.text.now result.at.place result.at.handed ≡ F.forecast text.now 0 0 }
        ensures place { result.at.place ≡ 0 }
    {
        ByteFeed {
            at: Cursor {
                text,
                place: 0,
                handed: 0,
            },
            format: PhantomData,
        }
    }
}

impl<F: Format> Feed for ByteFeed<'_, F> {
    ghost demands = { λ f. (F.forecast f.at.text.now f.at.place f.at.handed).demands };

    ghost ending = { λ f. (F.forecast f.at.text.now f.at.place f.at.handed).ending };

    ghost reached = { λ f. f.at.place };

    fn next(&mut self) -> Result<Option<u32>, FeedFault> {
        let Some(period) = F::read(&self.at)? else {
            return Ok(None);
        };
        self.at = Cursor {
            text: self.at.text,
            place: period.next,
            handed: self.at.period(),
        };
        Ok(Some(period.demand))
    }

    fn place(&self) -> usize {
        self.at.place
    }
}
