//! A rule applied until nothing moves.
ghost use Rattle.std.specs.Prelude.{◌+◌};
ghost use Rattle.rule.specs.Settled.{Settles};

use crate::{Rule, Verdict};
use arrayvec::ArrayVec;
use lots::{Lot, MAX_LOTS, Refusal, Table};

/// The verdict of applying a rule until it is still or dead, and the number of applications
/// (docs/RULES.md, "Piles"). The lots are as the last application left them; where it was dead,
/// they are those of before. A table that is not lawful is refused with `Unlawful`, and stays.
pub fn settle<R: Rule>(rule: &R, capacity: u16, lots: &mut [Lot]) -> Result<(Verdict, u32), Refusal>
    ensures answer { Settles (R.meaning rule.now) capacity lots.old lots.new result }
{
    Table::new(capacity, lots)?;
    // A lawful table has at most as many lots as there is room for.
    let before = ArrayVec::<Lot, MAX_LOTS>::try_from(&*lots).unwrap();
    let mut moves: u32 = 0;
    loop {
        match rule.apply(capacity, lots)? {
            Verdict::Moved => moves += 1,
            Verdict::Still => {
                let verdict = if moves == 0 {
                    Verdict::Still
                } else {
                    Verdict::Moved
                };
                return Ok((verdict, moves + 1));
            }
            Verdict::Dead => {
                lots.copy_from_slice(&before);
                return Ok((Verdict::Dead, moves + 1));
            }
        }
    }
}

#[cfg(test)]
mod tests {
    use super::*;
    use crate::{Both, Idle, Turned};

    const LOT: Lot = Lot {
        est: 2,
        lct: 9,
        p: 3,
        c: 1,
    };

    #[test]
    fn piles_of_idle_are_still(rt: HostRuntime) {
        let mut lots = [LOT, Lot { est: 0, ..LOT }];
        let pile = Both {
            first: Idle,
            second: Turned {
                rule: Both {
                    first: Idle,
                    second: Idle,
                },
            },
        };
        assert_eq!(rt; settle(&pile, 1, &mut lots), Ok((Verdict::Still, 1)));
        assert_eq!(rt; lots, [LOT, Lot { est: 0, ..LOT }]);
    }

    #[test]
    fn unlawful_tables_are_refused(rt: HostRuntime) {
        let mut lots = [Lot { p: 8, ..LOT }];
        let pile = Turned { rule: Idle };
        assert_eq!(rt; settle(&pile, 1, &mut lots), Err(Refusal::Unlawful));
        assert_eq!(rt; pile.apply(1, &mut lots), Err(Refusal::Unlawful));
        assert_eq!(rt; lots, [Lot { p: 8, ..LOT }]);
    }
}
