//! A plan: the table of a machine's lots, which its calls alter in place and keep lawful.
#![tactic(auto)]

use arrayvec::ArrayVec;
use lots::{Lot, MAX_LOTS};
use std::marker::Model;

mod calls;
mod checks;
mod promise;
mod views;

pub use promise::plans_answer_to_their_books;

/// The lots of one machine by number, each with the window that is left to it, under the machine's
/// capacity in trays (docs/PLAN.md). After every call it is a lawful table.
#[derive(Drop)]
pub struct Plan {
    capacity: u16,
    lots: ArrayVec<Lot, MAX_LOTS>,
}

// Clauses see the table that it holds.
impl Model for Plan {
    ghost use Rattle.lots.specs.Tables.{Lawful, Table};

    ghost Value = { Table };

    ghost view = { λ p. record { capacity = p.capacity; lots = p.lots.items } };

    ghost invariant = { λ p. Lawful p.capacity p.lots.items };
}
