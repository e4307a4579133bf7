// The calls of a series, with their answers.
use crate::refusals::{ReadRefusal, TakeRefusal};
use lots::Lot;

#[derive(Clone, Copy, PartialEq, Eq, Debug)]
pub enum Call {
    Read,
    Take,
}

// What the call itself gives back.
#[derive(Clone, Copy, PartialEq, Eq, Debug)]
pub enum Answer {
    Read(Result<bool, ReadRefusal>),
    Take(Result<Lot, TakeRefusal>),
}

// The call stands beside its answer, so that a record tells what was asked, and not only which kind of answer came.
#[derive(Clone, Copy, PartialEq, Eq, Debug)]
pub struct Entry {
    pub call: Call,
    pub answer: Answer,
}
