//! What holds of the print of every sheet, whatever the rule.
ghost use Rattle.sheet.specs.Sheets.{EverySheet};

/// With every sound rule each sheet has one print, and that fits a buffer of
/// [`MIN_PRINT`](crate::MIN_PRINT) bytes (docs/SHEET.md, "What is proved"). The contract says it;
/// the call does nothing.
pub fn each_sheet_has_one_print()
    ensures every_sheet { EverySheet }
{}
