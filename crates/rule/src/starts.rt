//! Earliest starts made later, all of them together.
ghost use Rattle.std.specs.Prelude.{◌≡◌, ◌+◌, ◌<◌, max, true, nat_le, slice_index};
ghost use Rattle.lots.specs.Tables.{ect as earliest_end};
ghost use Rattle.rule.specs.Raised.{later_lot, later_lots, all_fit, raise as raised};
ghost use Rattle.rule.specs.Meanings.{IsVerdictOn};

use crate::Verdict;
use lots::Lot;

// The bound of the lot with this number, and 0 where it has none, since no est is lower.
fn bound_of(bounds: &[u16], number: usize) -> u16
    ensures answer { result ≡ slice_index bounds.now number }
{
    bounds.get(number).copied().unwrap_or(0)
}

// Whether the run fits the window of a lot that starts at the bound or later.
fn fits(lot: &Lot, bound: u16) -> bool
    ensures answer { result ≡ nat_le (earliest_end (later_lot bound lot.now)) lot.now.lct }
{
    let later = Lot {
        est: bound.max(lot.est),
        ..*lot
    };
    later.fits()
}

// Whether every run fits its window where each lot starts at its bound or later.
fn every_run_fits(lots: &[Lot], bounds: &[u16]) -> bool
    ensures answer { result ≡ all_fit (later_lots (λ j. slice_index bounds.now j) 0 lots.now) }
{
    // With a chain of `all` the time-table takes half as long again on long windows.
    for (number, lot) in lots.iter().enumerate() {
        if !fits(lot, bound_of(bounds, number)) {
            return false;
        }
    }
    true
}

/// The verdict once each lot starts at its bound or later (docs/RULES.md, "To add a rule"). Where a
/// run does not fit then, it is dead, and no lot moves. A bound is a minute, and stands at the
/// number of its lot; lots past the last bound have none.
pub fn raise(lots: &mut [Lot], bounds: &[u16]) -> Verdict
    ensures answer { let outcome = raised (λ j. slice_index bounds.now j) lots.old in
        IsVerdictOn outcome lots.old lots.new result }
{
    if !every_run_fits(lots, bounds) {
        return Verdict::Dead;
    }
    let mut verdict = Verdict::Still;
    for (number, lot) in lots.iter_mut().enumerate() {
        let bound = bound_of(bounds, number);
        if lot.est < bound {
            lot.est = bound;
            verdict = Verdict::Moved;
        }
    }
    verdict
}

#[cfg(test)]
mod tests {
    use super::*;

    const LOT: Lot = Lot {
        est: 2,
        lct: 9,
        p: 3,
        c: 1,
    };

    #[test]
    fn starts_are_raised_together_or_not_at_all(rt: HostRuntime) {
        let mut lots = [LOT, LOT, LOT];
        assert_eq!(rt; raise(&mut lots, &[0, 2]), Verdict::Still);
        assert_eq!(rt; raise(&mut lots, &[6, 1, 3]), Verdict::Moved);
        assert_eq!(rt; lots, [Lot { est: 6, ..LOT }, LOT, Lot { est: 3, ..LOT }]);
        assert_eq!(rt; raise(&mut lots, &[0, 5, 7]), Verdict::Dead);
        assert_eq!(rt; lots, [Lot { est: 6, ..LOT }, LOT, Lot { est: 3, ..LOT }]);
    }
}
