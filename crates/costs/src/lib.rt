// Cost models: what a setup costs in each period, and what a unit costs by when it is made and when it is used.
#![tactic(auto)]

pub mod constant;
pub mod dated;
pub mod fault;
pub mod line;
pub mod lines;
pub mod making;
pub mod model;
#[cfg(test)]
mod tests;

pub use constant::ConstantCosts;
pub use dated::DatedCosts;
pub use dated::making::DatedCostsError;
pub use fault::CostFault;
pub use line::CostLine;
pub use lines::{DatedCostsFault, check_lines};
pub use model::CostModel;
