//! What is asked of a lot before a plan takes it, and of a window before a lot gets it.
ghost use Rattle.std.specs.Prelude.{◌≡◌};
ghost use Rattle.lots.specs.Checks.{Checked};
ghost use Rattle.plan.specs.Calls.{admit_checks, window_checks};
ghost use Rattle.plan.specs.Tables.{lot_between};

use lots::{HORIZON, Lot, MAX_LOTS, Refusal};

/// Whether a lot may join so many others.
pub(crate) fn admission(lot: Lot, capacity: u16, len: usize) -> Result<(), Refusal>
    ensures answer { Checked (admit_checks lot capacity len) (Unit {0}) (λ _. Unit {0}) result }
{
    if len >= MAX_LOTS {
        return Err(Refusal::TableFull);
    }
    if lot.c == 0 || lot.c > capacity {
        return Err(Refusal::Trays);
    }
    if lot.p == 0 {
        return Err(Refusal::Run);
    }
    if !lot.fits() || lot.lct > HORIZON {
        return Err(Refusal::Window);
    }
    Ok(())
}

/// The lot with a tighter window, where its run still fits.
pub(crate) fn narrowed(lot: Lot, from: u16, to: u16) -> Result<Lot, Refusal>
    ensures answer { Checked (window_checks lot from to) (Unit {0})
        (λ x. x ≡ lot_between from to lot) result }
{
    if from > to || to > HORIZON {
        return Err(Refusal::Span);
    }
    let tighter = Lot {
        est: from.max(lot.est),
        lct: to.min(lot.lct),
        ..lot
    };
    if !tighter.fits() {
        return Err(Refusal::NoRoom);
    }
    Ok(tighter)
}
