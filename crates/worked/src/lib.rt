//! Worked tables: a list of cases, each of which holds (docs/WORKED.md).
#![tactic(auto)]

ghost use Rattle.worked.specs.Cases.{AllHold};

/// Every case of the list holds: what is done with a table, and what comes out. The call does
/// nothing: its contract says it.
pub fn worked_tables_hold()
    ensures all_hold { AllHold }
{}
