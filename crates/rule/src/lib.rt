//! What a rule is and owes, the piles of rules, and rules applied until nothing moves.
#![tactic(auto)]

ghost use Rattle.std.specs.Prelude.{Some};
ghost use Rattle.rule.specs.Meanings.{Meaning, Sound, Applied};
ghost use Rattle.rule.specs.Verdicts.{shown_verdict};

use lots::{Lot, Refusal};
use std::fmt;

mod both;
mod fixpoint;
mod idle;
mod starts;
mod turned;

pub use both::Both;
pub use fixpoint::settle;
pub use idle::Idle;
pub use starts::raise;
pub use turned::{Turned, turned_twice};

/// What an application did to the table. It is shown as its word: `still`, `moved` or `dead`.
#[derive(Clone, Copy, PartialEq, Eq, Debug)]
pub enum Verdict {
    /// The table is as it was.
    Still,
    /// Some window is narrower.
    Moved,
    /// The table has no schedule. It is as it was.
    Dead,
}

impl fmt::Display for Verdict {
    ghost output = { λ verdict. Some (shown_verdict verdict) };

    fn fmt<W: fmt::Write>(&self, f: &mut fmt::Formatter<W>) -> fmt::Result {
        f.write_str(match self {
            Verdict::Still => "still",
            Verdict::Moved => "moved",
            Verdict::Dead => "dead",
        })
    }
}

/// A rule: it narrows the windows of a table and loses no schedule (docs/RULES.md, "What a rule
/// is"). It owes four facts of its meaning, and then every pile of it and every plan that it
/// tightens is right.
pub trait Rule {
    ghost meaning: { Self → Meaning };

    /// The verdict of one application, which writes the table that the rule makes of these lots
    /// over them. A table that is not lawful is refused with `Unlawful`, and stays.
    fn apply(&self, capacity: u16, lots: &mut [Lot]) -> Result<Verdict, Refusal>
        ensures answer { Applied (meaning self.now) capacity lots.old lots.new result };

    ghost sound: { (x : Self) → Sound (meaning x) };
}

// A rule that is lent is the rule.
impl<'a, X: Rule> Rule for &'a X {
    ghost meaning = { λ x. X.Rule.meaning x.now };

    ghost sound = { λ x. X.Rule.sound x.now };

    fn apply(&self, capacity: u16, lots: &mut [Lot]) -> Result<Verdict, Refusal> {
        (**self).apply(capacity, lots)
    }
}
