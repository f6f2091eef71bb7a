//! How much was compared, and what differed.

use crate::tables::Sample;
use std::io;

/// A sample, and the rule of which something is compared on it.
#[derive(Clone, Copy)]
pub struct Case<'a> {
    pub sample: &'a Sample,
    pub rule: &'a str,
}

/// Counts comparisons and differences, and prints each difference.
#[derive(Drop)]
pub struct Tally<'a> {
    rt: &'a HostRuntime,
    pub comparisons: u64,
    pub differences: u64,
}

impl<'a> Tally<'a> {
    /// A tally of nothing yet.
    pub fn new(rt: &'a HostRuntime) -> Tally<'a> {
        Tally {
            rt,
            comparisons: 0,
            differences: 0,
        }
    }

    /// Counts a comparison, and prints it where it does not hold.
    pub fn compare(&mut self, case: Case<'_>, what: &str, holds: bool) -> io::Result<()> {
        self.comparisons = self.comparisons.saturating_add(1);
        if holds {
            return Ok(());
        }
        self.differences = self.differences.saturating_add(1);
        let Case { sample, rule } = case;
        println!(self.rt; "{sample}: {rule}: not so: {what}")
    }
}
