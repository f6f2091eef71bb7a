//! Reads calls from standard input, one a line, and answers each with one line on standard output.
#![tactic(auto)]

use calls::answer;
use plan::Plan;
use std::io::{BufRead, BufReader};

mod answers;
mod calls;
mod parts;
mod piles;
mod words;

fn main(rt: HostRuntime) -> anyhow::Result<()> {
    let heap = rt.alloc();
    let mut plan = Plan::new();
    for line in BufReader::new(heap, rt.stdin())?.split(heap, b'\n') {
        let line = line?;
        if let Some(answer) = answer(heap, &mut plan, line.as_slice())? {
            rt.println(answer)?;
        }
    }
    Ok(())
}
