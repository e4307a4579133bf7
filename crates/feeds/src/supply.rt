// What is there before anything is made: the stock that was carried in, and the receipts still to come.
ghost use Rattle.std.specs.Prelude.{◌≡◌, ◌+◌, ◌*◌, ◌≤◌, true};
ghost use Rattle.std.specs.VecDeque.{deque_len};
ghost use Rattle.feeds.specs.Receipts.{coming_from};

use crate::receipt::Receipt;
use std::collections::VecDeque;

mod meeting;

// A receipt leaves the queue in the period in which it comes. Once all have, the period is no longer counted.
#[derive(Drop)]
pub(crate) struct Supply {
    stock: u64,
    receipts: VecDeque<Receipt>,
    period: u64,
    ghost few: { deque_len receipts ≤ 32 },
    ghost bounded: { stock + 1000000000 * deque_len receipts ≤ 33000000000 },
    ghost coming: { coming_from period receipts.items ≡ true },
}
