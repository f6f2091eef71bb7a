//! The pile that the house uses.
ghost use Rattle.std.specs.Prelude.{◌≡◌};
ghost use Rattle.rules.specs.House.{house};
ghost use Rattle.rules.specs.Laws.HouseSound.{house_sound};

use crate::{NotFirst, Overload, TimeTable};
use lots::{Lot, Refusal};
use rule::{Both, Rule, Turned, Verdict};

type Pile = Both<
    Overload,
    Both<TimeTable, Both<NotFirst, Both<Turned<TimeTable>, Turned<NotFirst>>>>,
>;

/// The house pile as a rule: overload, time-table, not-first, turned time-table and turned
/// not-first, in this order (docs/RULES.md, "Piles").
#[derive(Clone, Copy, Debug)]
pub struct House {
    pile: Pile,
}

/// The house pile: the rule by which the house tightens and solves.
pub fn house_pile() -> House
    ensures house { ⟦<House as Rule>⟧.meaning result ≡ house }
{
    House {
        pile: Pile::default(),
    }
}

impl Rule for House {
    ghost meaning = { λ _. house };

    ghost sound = { λ x. house_sound };

    fn apply(&self, capacity: u16, lots: &mut [Lot]) -> Result<Verdict, Refusal> {
        self.pile.apply(capacity, lots)
    }
}

#[cfg(test)]
mod tests {
    use super::*;

    #[test]
    fn the_pile_moves_both_ends(rt: HostRuntime) {
        let mut lots = [
            Lot::new(254, 260, 4, 3),
            Lot::new(259, 261, 1, 2),
            Lot::new(259, 260, 1, 3),
        ];
        assert_eq!(rt; house_pile().apply(3, &mut lots), Ok(Verdict::Moved));
        assert_eq!(rt;
            lots,
            [
                Lot::new(254, 259, 4, 3),
                Lot::new(260, 261, 1, 2),
                Lot::new(259, 260, 1, 3),
            ]
        );
    }

    #[test]
    fn a_dead_pile_leaves_the_table(rt: HostRuntime) {
        let mut lots = [Lot::new(4, 6, 2, 2), Lot::new(0, 6, 5, 1)];
        assert_eq!(rt; house_pile().apply(2, &mut lots), Ok(Verdict::Dead));
        assert_eq!(rt; house_pile().apply(1, &mut lots), Err(Refusal::Unlawful));
        assert_eq!(rt; lots, [Lot::new(4, 6, 2, 2), Lot::new(0, 6, 5, 1)]);
    }
}
