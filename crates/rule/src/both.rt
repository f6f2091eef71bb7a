//! Two rules, one after the other.
ghost use Rattle.rule.specs.Both.{both as one_then_other};
ghost use Rattle.rule.specs.Laws.Sequence.{both_sound};

use crate::{Rule, Verdict};
use arrayvec::ArrayVec;
use lots::{Lot, MAX_LOTS, Refusal};

/// A rule, and then another on the table that the first leaves (docs/RULES.md, "Piles"). It is dead
/// where either is.
#[derive(Clone, Copy, Default, Debug)]
pub struct Both<X, Y> {
    /// The rule that is applied to the table.
    pub first: X,
    /// The rule that is applied after it, unless the table is dead by then.
    pub second: Y,
}

impl<X: Rule, Y: Rule> Rule for Both<X, Y> {
    ghost meaning = { λ b. one_then_other (X.Rule.meaning b.first) (Y.Rule.meaning b.second) };

    ghost sound = { λ x. both_sound _ _ (X.Rule.sound x.first) (Y.Rule.sound x.second) };

    fn apply(&self, capacity: u16, lots: &mut [Lot]) -> Result<Verdict, Refusal> {
        // A lawful table has at most as many lots as there is room for. Whether this one is lawful
        // the rules ask themselves.
        let Ok(before) = ArrayVec::<Lot, MAX_LOTS>::try_from(&*lots) else {
            return Err(Refusal::Unlawful);
        };
        let first = self.first.apply(capacity, lots)?;
        if let Verdict::Dead = first {
            return Ok(Verdict::Dead);
        }
        match self.second.apply(capacity, lots)? {
            Verdict::Still => Ok(first),
            Verdict::Moved => Ok(Verdict::Moved),
            Verdict::Dead => {
                lots.copy_from_slice(&before);
                Ok(Verdict::Dead)
            }
        }
    }
}
