#![tactic(auto)]

pub mod holding;

// Whole series of calls over every kind of feed and cost model, run and compared with worked answers.
#[cfg(test)]
mod tests;
