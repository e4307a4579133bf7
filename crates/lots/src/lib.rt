// What every layer shares: the lot, the check of dated lines, numbers as decimal text, words of 32 bits, and why something was not made.
#![tactic(auto)]

pub mod dated;
pub mod decimal;
pub mod failure;
mod lot;
pub mod making;
#[cfg(test)]
mod tests;
pub mod word;

pub use dated::{DatedFault, DatedLine, FirstDate, Refusal, check_dated};
pub use decimal::{Decimal, Numeral};
pub use failure::Failure;
pub use lot::{Lot, LotKind};
pub use word::{Word, WordKind};
