//! Reads a sheet from standard input, carries it out with the house pile, and writes its print to
//! standard output (docs/SHEET.md). The status is 0 also where the print ends with a refusal.
#![tactic(auto)]

use anyhow::anyhow;
use rules::house_pile;
use sheet::{MAX_SHEET, MIN_PRINT};
use std::io::{Read, Write};

fn main(rt: HostRuntime) -> anyhow::Result<()> {
    let heap = rt.alloc();
    let mut sheet = vec![in heap]?;
    // One byte more than a sheet may have shows that it is too long.
    rt.stdin()
        .take(MAX_SHEET as u64 + 1)
        .read_to_end(&mut sheet)?;
    let mut print = vec![in heap; 0; MIN_PRINT]?;
    let len = sheet::run(&house_pile(), sheet.as_slice(), print.as_mut_slice()).map_err(|_| anyhow!(
        "the buffer for the print is too short"
    ))?;
    print.truncate(len);
    rt.stdout().write_all(print.as_slice())?;
    Ok(())
}
