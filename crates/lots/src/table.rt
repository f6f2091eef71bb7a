//! Tables that are known to be lawful.
ghost use Rattle.std.specs.Prelude.{◌≡◌, MatchResult};
ghost use Rattle.std.proofs.Props.{props};
ghost use Rattle.lots.specs.Tables.{Lawful};
ghost use Rattle.lots.specs.declared.Refusal.TheVariants.{Unlawful};

use crate::{Lot, Refusal, is_lawful};

/// A capacity and the lots of a lawful table (docs/RULES.md, "Lots, tables and schedules").
#[derive(Clone, Copy)]
pub struct Table<'a> {
    /// The trays that can be in use at once.
    pub capacity: u16,
    /// The lots, which are called by their number from 0.
    pub lots: &'a [Lot],
    // After `by`: this has at most one proof, so tables of the same capacity and lots are equal.
    pub ghost lawful: { Lawful capacity lots.now } by { Prim.hlevel props },
}

impl<'a> Table<'a> {
    /// The table of a capacity and lots, or `Unlawful` where it would not be lawful.
    pub fn new(capacity: u16, lots: &'a [Lot]) -> Result<Table<'a>, Refusal>
        ensures answer { MatchResult result
            (λ table. (table.capacity ≡ capacity) × (table.lots.now ≡ lots.now)
            × Lawful capacity lots.now)
            (λ refusal. (Lawful capacity lots.now → ⊥) × (refusal ≡ Unlawful)) }
    {
        if is_lawful(capacity, lots) {
            Ok(Table { capacity, lots })
        } else {
            Err(Refusal::Unlawful)
        }
    }
}
