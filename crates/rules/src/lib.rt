//! The rules of the house.
#![tactic(auto)]

mod chosen;
mod ends;
mod house;
mod not_first;
mod overload;
mod time_table;

pub use house::{House, house_pile};
pub use not_first::NotFirst;
pub use overload::Overload;
pub use time_table::TimeTable;
