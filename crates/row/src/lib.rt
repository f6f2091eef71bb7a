//! Rows of elements in the strict order of their keys, over lent cells or in an array of their own.
#![tactic(auto)]

mod array_row;
mod row;

pub use array_row::ArrayRow;
pub use row::{Keyed, Place, Row};
