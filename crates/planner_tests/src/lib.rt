//! Tests that cross crates: plans and sheets with the rules of the house, and the worked tables.
#![tactic(auto)]

#[cfg(test)]
mod plans;
#[cfg(test)]
mod sheets;
#[cfg(test)]
mod worked;
