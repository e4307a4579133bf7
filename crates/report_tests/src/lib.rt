#![tactic(auto)]

// Inputs and what is printed for them, in a crate of their own so that `report` and `rolling_report` are not proved twice.
#[cfg(test)]
mod tests;
