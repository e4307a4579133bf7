// What the program answers to its input: for each of its modes one call from bytes to bytes.
#![tactic(auto)]

mod modes;
pub mod planning;

pub use modes::{lot_file, report, report_orders};
pub use planning::AtOnce;
pub use reporting::{CostLine, Costs, LotFileError, Refusal, cost_line_at, costs_of, refusal_line};
