// The netting layer: over any feed, what stock and receipts leave of its demands; itself a feed.
ghost use Rattle.std.specs.Prelude.{◌≡◌};
ghost use Rattle.feeds.specs.Netting.{net_of, risen, above};

use crate::fault::FeedFault;
use crate::feed::Feed;
use crate::supply::Supply;

pub mod fault;
pub mod making;

#[derive(Drop)]
pub struct Netting<F> {
    feed: F,
    supply: Supply,
}

// A fault of the feed below, on its way up.
#[derive(Clone, Copy)]
struct Below(FeedFault);

impl From<Below> for FeedFault {
    ghost from_gives = { λ b r. r ≡ risen b.0 };

    fn from(below: Below) -> FeedFault {
        FeedFault {
            layers: below.0.layers.saturating_add(1),
            ..below.0
        }
    }
}

impl<F: Feed> Feed for Netting<F> {
    ghost demands = { λ n. net_of n.supply (F.Feed.demands n.feed) };

    ghost ending = { λ n. above (F.Feed.ending n.feed) };

    ghost reached = { λ n. F.Feed.reached n.feed };

    fn next(&mut self) -> Result<Option<u32>, FeedFault> {
        let Some(gross) = self.feed.next().map_err(Below)? else {
            return Ok(None);
        };
        Ok(Some(self.supply.meet(gross)))
    }

    fn place(&self) -> usize {
        self.feed.place()
    }
}
