// Feeds hand out the demand of one period after another.
#![tactic(auto)]

mod cursor;
pub mod examples;
pub mod fault;
pub mod feed;
mod format;
mod line;
pub mod netting;
pub mod orders;
mod period;
pub mod receipt;
mod supply;
pub mod text;

pub use fault::{FeedFault, RecordFault, RecordFaultKind};
pub use feed::Feed;
pub use format::{ByteFeed, Format};
pub use netting::Netting;
pub use netting::fault::NettingFault;
pub use netting::making::NettingRefused;
pub use orders::OrderFeed;
pub use receipt::{Receipt, ReceiptFault};
pub use text::TextFeed;

#[cfg(test)]
mod tests;
