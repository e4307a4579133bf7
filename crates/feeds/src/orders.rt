// The order feed: a forecast in words of 32 bits.
ghost use Rattle.std.specs.Prelude.{◌≡◌};
ghost use Rattle.std.proofs.Common.{rules};
ghost use Rattle.feeds.specs.Orders.{order_at, orders};
ghost use Rattle.feeds.specs.SmallDemands.{orders_small};

use crate::cursor::Cursor;
use crate::fault::RecordFault;
use crate::format::{ByteFeed, Format};
use crate::period::Period;

// Words that open a period, order and cancel in it, and end the file.
#[derive(Clone, Copy, Debug)]
pub struct OrderWords;

// A feed over such words, read straight from the caller's bytes.
pub type OrderFeed<'a> = ByteFeed<'a, OrderWords>;

// The period at the cursor, or none where the file ends. A function of its own, since its clause names the definition of a period.
#[tactic(auto, unfolding(crate::specs::Orders::order_at))]
fn period_due(at: &Cursor<'_>) -> Result<Option<Period>, RecordFault>
    ensures { result ≡ order_at at.now.text.now at.now.place at.now.handed }
{
    if at.opens_period(at.word()?)? {
        return Ok(Some(at.past(4).read_period()?));
    }
    Ok(None)
}

impl Format for OrderWords {
    ghost forecast = { orders };

    ghost most = { 1073741823 };

    #[tactic(auto, using(crate::proofs::Orderly::opened, crate::proofs::Orderly::order_read))]
    fn read(at: &Cursor<'_>) -> Result<Option<Period>, RecordFault> {
        period_due(at)
    }

    ghost small = { orders_small };

    ghost few = { Prim.search rules };
}
