//! The rule that does nothing.
ghost use Rattle.rule.specs.Idle.{idle as gives_back};
ghost use Rattle.rule.specs.Laws.Tables.{idle_sound};

use crate::{Rule, Verdict};
use lots::{Lot, Refusal, Table};

/// The rule that leaves every lawful table as it is.
#[derive(Clone, Copy, Default, Debug)]
pub struct Idle;

impl Rule for Idle {
    ghost meaning = { λ _. gives_back };

    ghost sound = { λ x. idle_sound };

    fn apply(&self, capacity: u16, lots: &mut [Lot]) -> Result<Verdict, Refusal> {
        Table::new(capacity, lots)?;
        Ok(Verdict::Still)
    }
}
