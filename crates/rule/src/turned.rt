//! Rules on the week read backwards.
ghost use Rattle.std.specs.Prelude.{◌≡◌, map};
ghost use Rattle.std.specs.List.{AllByRecursion};
ghost use Rattle.rule.specs.Turned.{turn as turned_lot, turned as turned_round, Alike};
ghost use Rattle.rule.specs.Private.Week.{InWeek};
ghost use Rattle.rule.specs.Laws.Mirror.{turned_sound};

use crate::{Rule, Verdict};
use lots::{HORIZON, Lot, Refusal, Table};

/// A rule on the week read backwards (docs/RULES.md, "Piles"). What the rule does to earliest
/// starts, this does to latest ends.
#[derive(Clone, Copy, Default, Debug)]
pub struct Turned<X> {
    /// The rule that is turned.
    pub rule: X,
}

fn turn_lot(lot: Lot) -> Lot
    requires in_week { InWeek lot }
    ensures answer { result ≡ turned_lot lot }
{
    Lot {
        est: HORIZON - lot.lct,
        lct: HORIZON - lot.est,
        ..lot
    }
}

// Turns every lot, whether a rule moved it or not.
fn turn(lots: &mut [Lot])
    requires in_week { AllByRecursion InWeek lots.old }
    ensures after { lots.new ≡ map turned_lot lots.old }
{
    for lot in lots.iter_mut() {
        *lot = turn_lot(*lot);
    }
}

impl<X: Rule> Rule for Turned<X> {
    ghost meaning = { λ t. turned_round (X.Rule.meaning t.rule) };

    ghost sound = { λ x. turned_sound _ (X.Rule.sound x.rule) };

    fn apply(&self, capacity: u16, lots: &mut [Lot]) -> Result<Verdict, Refusal> {
        Table::new(capacity, lots)?;
        turn(lots);
        let answer = self.rule.apply(capacity, lots);
        turn(lots);
        answer
    }
}

/// The rule turned twice, which means the rule itself.
pub fn turned_twice<X: Rule>(rule: X) -> Turned<Turned<X>>
    ensures alike { (result.rule.rule ≡ rule)
        × Alike (turned_round (turned_round (X.meaning rule))) (X.meaning rule) }
{
    Turned {
        rule: Turned { rule },
    }
}
