//! Reads a sheet from standard input and prints its report, or where the sheet is at fault.
#![tactic(auto)]

use anyhow::anyhow;
use bench::{Bench, TEXT_LIMIT, WORK_LENGTH, respond};
use std::io::{Read, Write};

fn run(rt: &HostRuntime) -> anyhow::Result<()> {
    let heap = rt.alloc();
    let mut bench = Bench::blank(heap)?;
    let mut text = Vec::new(heap);
    // One byte more than a sheet's text may have, so that a longer one is seen to be longer.
    let most = TEXT_LIMIT as u64 + 1;
    let _ = rt.stdin().take(most).read_to_end(&mut text)?;
    let mut work = vec![in heap; 0u8; WORK_LENGTH]?;
    let mut out = vec![in heap; 0u8; 1024]?;
    match respond(
        &mut bench,
        text.as_slice(),
        work.as_mut_slice(),
        out.as_mut_slice(),
    ) {
        Ok(length) if length <= out.len() => {
            rt.stdout().write_all(&out.as_slice()[0..length])?;
            Ok(())
        }
        _ => Err(anyhow!("the report does not fit its buffer")),
    }
}

fn main(rt: HostRuntime) -> anyhow::Result<()> {
    run(&rt)
}
