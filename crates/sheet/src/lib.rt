//! The sheet of a shift: its lines are carried out in order as they are read, and what they answer
//! is printed.
#![tactic(auto)]

mod desk;
mod line;
mod page;
mod print;
mod promise;
mod reader;
mod runs;
mod token;

pub use promise::each_sheet_has_one_print;
pub use runs::{MAX_SHEET, MIN_PRINT, run};

#[cfg(test)]
mod tests;
