// The planner: it reads a forecast period by period and freezes each lot as soon as no later demand can change it.
#![tactic(auto)]

pub mod calls;
pub mod closed;
pub mod forecast;
pub mod planner;
pub mod refusal;
pub mod refusals;
mod rows;
pub mod run;
pub mod series;
pub mod whole;

pub use calls::{Answer, Call, Entry};
pub use closed::Closed;
pub use forecast::{Planned, plan_forecast};
pub use planner::Planner;
pub use refusal::PlanRefusal;
pub use refusals::{ReadRefusal, RestRefusal, TakeRefusal};
pub use run::run_series;
pub use series::Series;
pub use whole::cheapest_plan;
