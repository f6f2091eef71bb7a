//! The load of a table whose lots each start at their est.
ghost use Rattle.std.specs.Prelude.{◌≡◌};
ghost use Rattle.lots.specs.Schedules.{spans, end as end_of};
ghost use Rattle.lots.specs.Tables.{ect as earliest_end};
ghost use Rattle.tree.specs.Private.Held.{IsLeastEst, LoadWithin};
ghost use Rattle.tree.specs.Tree.{earliest_starts as starts_of};

use lots::{Lot, Table};

/// The minute at which the last lot is out, and 0 without lots.
pub(crate) fn last_end(lots: &[Lot]) -> u32
    ensures answer { result ≡ end_of lots.now (starts_of lots.now) }
{
    lots.iter().map(|lot| lot.ect()).max().unwrap_or(0)
}

// The minute at which the first lot goes in, and 0 without lots.
fn first_start(lots: &[Lot]) -> u32
    ensures answer { IsLeastEst lots.now result }
{
    lots.iter().map(|lot| u32::from(lot.est)).min().unwrap_or(0)
}

fn runs_at(lot: &Lot, minute: u32) -> bool
    ensures answer { result ≡ spans lot.now.est (earliest_end lot.now) minute }
{
    u32::from(lot.est) <= minute && minute < lot.ect()
}

/// Whether the load is within the capacity at every minute.
pub(crate) fn is_within(table: Table<'_>) -> bool
    ensures answer { LoadWithin table.entry.capacity table.entry.lots.now result }
{
    // Both loops are left at the first minute whose load passes the capacity.
    'load: {
        for minute in first_start(table.lots)..last_end(table.lots) {
            let mut load = 0;
            for lot in table.lots {
                if runs_at(lot, minute) {
                    load += lot.c;
                    if load > table.capacity {
                        break 'load false;
                    }
                }
            }
        }
        true
    }
}
