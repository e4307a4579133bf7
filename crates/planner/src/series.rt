// Whole series of calls, from opening a planner to emptying it.
use crate::calls::Entry;
use lots::Lot;

// What was called and answered, and the closing lots behind it.
#[derive(Drop)]
pub struct Series {
    pub entries: Vec<Entry>,
    pub closing: Vec<Lot>,
}
