// What the program answers to its input: for each of its modes one call from bytes to bytes.
#![tactic(auto)]

pub mod letters;
mod modes;
pub mod planning;
pub mod replaying;

pub use letters::calls_of;
pub use modes::{lot_file, report, report_orders};
pub use planner::Call;
pub use planning::Rolling;
pub use replaying::replay;
pub use reporting::{CostLine, Costs, LotFileError, Refusal, cost_line_at, costs_of, refusal_line};
