//! The calls on a plan. A refused call alters nothing. What a call answers and leaves is one
//! clause, and that it follows the plan's book another.
ghost use Rattle.std.specs.Prelude.{◌≡◌, ◌-◌, ◌*◌, ◌≤◌, [], IfOk};
ghost use Rattle.plan.specs.Tables.{empty};
ghost use Rattle.plan.specs.Calls.{Opened, Admitted, Narrowed, Tightened};
ghost use Rattle.tree.specs.Answer.{nodes as nodes_of, Solved};
ghost use Rattle.tree.specs.Tree.{ways};
ghost use Rattle.plan.specs.Book.{opening, admitting, narrowing, tightening, solving, accepted, entry_of};
ghost use Rattle.plan.specs.History.{History, BeginsHistory, Follows};
ghost use Rattle.plan.specs.Promise.{SearchAnswersToBooks};

use crate::Plan;
use crate::checks::{admission, narrowed};
use arrayvec::ArrayVec;
use lots::{Lot, MAX_CAPACITY, Refusal, Table};
use rule::{Rule, Verdict, settle};
use tree::Search;

impl Plan {
    /// A plan with no lots and a capacity of 1 tray.
    pub fn new() -> Plan
        ensures exact { result ≡ empty 1 }
        ensures begins { History [] result }
    {
        Plan {
            capacity: 1,
            lots: ArrayVec::new(),
        }
    }

    /// Empties the plan and sets its capacity, in trays.
    ///
    /// Refused with 1 where the capacity is 0 or above 200.
    pub fn open(&mut self, capacity: u16) -> Result<(), Refusal>
        ensures exact { Opened capacity self.old self.new result }
        ensures follows { Follows (entry_of (opening capacity) result) self.old self.new }
        ensures begins { BeginsHistory capacity result self.new }
    {
        if capacity == 0 || capacity > MAX_CAPACITY {
            return Err(Refusal::Capacity);
        }
        self.capacity = capacity;
        self.lots.clear();
        Ok(())
    }

    /// Adds the lot at the next number, from 0, and answers the number.
    ///
    /// Refused by the first cause that applies: with 2 where 64 lots are in, 3 where the lot takes
    /// no tray or more than the capacity, 4 where it runs for 0 minutes, 5 where est + p is above
    /// lct or lct is above 10,080.
    pub fn admit(&mut self, lot: Lot) -> Result<usize, Refusal>
        ensures exact { Admitted lot self.old self.new result }
        ensures follows { Follows (entry_of (admitting lot) result) self.old self.new }
    {
        let number = self.lots.len();
        admission(lot, self.capacity, number)?;
        self.lots.push(lot);
        Ok(number)
    }

    /// Has the lot of this number go in at minute `from` or later and be out by minute `to`, where
    /// these are tighter than its window.
    ///
    /// Refused by the first cause that applies: with 6 where no lot has the number, 7 where `from`
    /// is above `to` or `to` is above 10,080, 8 where the run does not fit what would be left.
    pub fn narrow(&mut self, lot: usize, from: u16, to: u16) -> Result<(), Refusal>
        ensures exact { Narrowed lot from to self.old self.new result }
        ensures follows { Follows (entry_of (narrowing lot from to) result) self.old self.new }
    {
        let place = self.lots.get_mut(lot).ok_or(Refusal::NoSuchLot)?;
        let tighter = narrowed(*place, from, to)?;
        *place = tighter;
        Ok(())
    }

    /// Applies the rule until it is still or dead, and answers the verdict with the number of
    /// applications, the last counted in. Dead puts back the windows from before. It is never
    /// refused.
    pub fn tighten<R: Rule>(&mut self, rule: &R) -> (Verdict, u32)
        ensures exact { Tightened (R.meaning rule.now) self.old self.new result.0 result.1 }
        ensures follows { Follows (accepted (tightening (R.meaning rule.now))) self.old self.new }
    {
        // A lawful table is never refused.
        settle(rule, self.capacity, self.lots.as_mut_slice()).unwrap()
    }

    /// Finds a best schedule by a search of at most `budget` nodes (docs/SEARCH.md), and leaves the
    /// plan as it is. Best writes the start of each lot, by number, to the first places of
    /// `starts`.
    ///
    /// The trail is lent for the nodes that are unvisited, and comes back blank, unless refused.
    ///
    /// Refused by the first cause that applies: with 10 where the budget is 0, 11 where the trail
    /// has fewer than n × n + n cells for n lots, 12 where there are fewer than n places for
    /// starts.
    pub fn solve<R: Rule>(
        &self,
        rule: &R,
        budget: u32,
        trail: &mut [Lot],
        starts: &mut [u16],
    ) -> Result<Search, Refusal>
        ensures exact { Solved (R.meaning rule.now) self.now.capacity self.now.lots budget
            trail.old trail.new starts.old starts.new result }
        ensures follows { let call = solving (R.meaning rule.now) budget trail.old starts.old in
            Follows (entry_of call result) self.now self.now }
        ensures short { IfOk result (λ a. nodes_of a ≤ 2 * ways self.now.lots - 1) }
        ensures promised { IfOk result
            (SearchAnswersToBooks (R.meaning rule.now) self.now budget starts.new) }
    {
        // The table of a plan is lawful.
        let table = Table::new(self.capacity, self.lots.as_slice()).unwrap();
        tree::solve(rule, table, budget, trail, starts)
    }
}

impl Default for Plan {
    ghost is_default = { λ plan. (plan ≡ empty 1) × History [] plan };

    fn default() -> Plan {
        Self::new()
    }
}

#[cfg(test)]
mod tests {
    use super::*;

    const WEEK: Lot = Lot {
        est: 0,
        lct: 10_080,
        p: 10_080,
        c: 1,
    };

    const SHORT: Lot = Lot {
        est: 2,
        lct: 9,
        p: 3,
        c: 1,
    };

    #[test]
    fn open_takes_1_to_200_trays(rt: HostRuntime) {
        let mut plan = Plan::new();
        assert_eq!(rt; plan.capacity(), 1);
        assert_eq!(rt; plan.lots().len(), 0);
        assert_eq!(rt; plan.admit(SHORT), Ok(0));
        assert_eq!(rt; plan.open(0), Err(Refusal::Capacity));
        assert_eq!(rt; plan.open(201), Err(Refusal::Capacity));
        assert_eq!(rt; plan.capacity(), 1);
        assert_eq!(rt; plan.lots(), [SHORT].as_slice());
        assert_eq!(rt; plan.open(200), Ok(()));
        assert_eq!(rt; plan.capacity(), 200);
        assert_eq!(rt; plan.lots().len(), 0);
    }

    #[test]
    fn admit_takes_64_lots(rt: HostRuntime) {
        let mut plan = Plan::new();
        for number in 0..64 {
            assert_eq!(rt; plan.admit(WEEK), Ok(number));
        }
        assert_eq!(rt; plan.admit(Lot { c: 0, ..WEEK }), Err(Refusal::TableFull));
        assert_eq!(rt; plan.lots(), [WEEK; 64].as_slice());
    }

    #[test]
    fn admit_refuses_by_the_first_cause(rt: HostRuntime) {
        let mut plan = Plan::new();
        assert_eq!(rt; plan.open(24), Ok(()));
        let none = Lot { c: 0, p: 0, ..WEEK };
        assert_eq!(rt; plan.admit(none), Err(Refusal::Trays));
        assert_eq!(rt; plan.admit(Lot { c: 25, ..WEEK }), Err(Refusal::Trays));
        let late = Lot {
            est: 10_081,
            ..WEEK
        };
        assert_eq!(rt; plan.admit(Lot { p: 0, ..late }), Err(Refusal::Run));
        assert_eq!(rt; plan.admit(Lot { est: 1, ..WEEK }), Err(Refusal::Window));
        let longer = Lot {
            lct: 10_081,
            ..WEEK
        };
        assert_eq!(rt; plan.admit(longer), Err(Refusal::Window));
        assert_eq!(rt; plan.lots().len(), 0);
        assert_eq!(rt; plan.admit(Lot { c: 24, ..WEEK }), Ok(0));
    }

    #[test]
    fn narrow_refuses_by_the_first_cause(rt: HostRuntime) {
        let mut plan = Plan::new();
        assert_eq!(rt; plan.admit(SHORT), Ok(0));
        assert_eq!(rt; plan.narrow(1, 1, 0), Err(Refusal::NoSuchLot));
        assert_eq!(rt; plan.narrow(0, 10_082, 10_081), Err(Refusal::Span));
        assert_eq!(rt; plan.narrow(0, 7, 6), Err(Refusal::Span));
        assert_eq!(rt; plan.narrow(0, 0, 10_081), Err(Refusal::Span));
        assert_eq!(rt; plan.narrow(0, 7, 10_080), Err(Refusal::NoRoom));
        assert_eq!(rt; plan.narrow(0, 0, 4), Err(Refusal::NoRoom));
        assert_eq!(rt; plan.narrow(0, 4, 6), Err(Refusal::NoRoom));
        assert_eq!(rt; plan.lots(), [SHORT].as_slice());
    }

    #[test]
    fn narrow_only_narrows(rt: HostRuntime) {
        let mut plan = Plan::new();
        assert_eq!(rt; plan.admit(WEEK), Ok(0));
        assert_eq!(rt; plan.admit(SHORT), Ok(1));
        assert_eq!(rt; plan.narrow(1, 0, 10_080), Ok(()));
        assert_eq!(rt; plan.lots(), [WEEK, SHORT].as_slice());
        assert_eq!(rt; plan.narrow(1, 3, 6), Ok(()));
        assert_eq!(rt;
            plan.lots(),
            [
                WEEK,
                Lot {
                    est: 3,
                    lct: 6,
                    ..SHORT
                },
            ]
            .as_slice()
        );
    }
}
