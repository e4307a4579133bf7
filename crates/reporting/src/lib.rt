// What both programs share: the costs of an input, refusals, the lines that are printed, and lot files. How demands are
// written and how they are planned are parameters.
#![tactic(auto)]

pub mod cost_line;
pub mod costing;
pub mod filing;
pub mod lines;
pub mod mode;
pub mod planning;
pub mod print;
pub mod program;
pub mod refusal;

pub use cost_line::{CostLine, cost_line_at};
pub use costing::{Costs, costs_of};
pub use filing::{LotFileError, file_input};
pub use mode::{Mode, UnknownMode};
pub use planning::Planning;
pub use print::{print_input, refusal_line};
pub use program::{fail, read_input};
pub use refusal::Refusal;
