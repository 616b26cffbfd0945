//! Answers each of the sheets 000.sheet to 116.sheet as the report program would, on one bench, and sees that both
//! kinds of set give the same report.
#![tactic(auto)]

use anyhow::anyhow;
use bench::{Bench, WORK_LENGTH, respond};
use sets::SortedList;
use std::fs;
use std::io::Write;
use texts::refusal::Refusal;

/// How many sheets there are.
const CASES: u32 = 117;

/// Whether the sorted list gives the report `expected` too, or is refused where the sheet has too many states for it.
fn list_agrees(bench: &Bench, work: &mut [u8], expected: &[u8], out: &mut [u8]) -> bool {
    match bench.report(work, &mut SortedList::new(), out) {
        Ok(length) if length <= out.len() => {
            bench.sheet().state_count() <= 64 && &out[0..length] == expected
        }
        Err(Refusal::SetTooSmall) => bench.sheet().state_count() > 64,
        _ => false,
    }
}

/// Prints the answer to one sheet below its name.
fn answer(
    rt: &HostRuntime,
    bench: &mut Bench,
    name: &str,
    work: &mut [u8],
    out: &mut [u8],
    other: &mut [u8],
) -> anyhow::Result<()> {
    let text = fs::read(rt, name)?;
    println!(rt; "{name}")?;
    match respond(bench, text.as_slice(), work, out) {
        Ok(length) if length <= out.len() => {
            let reported = &out[0..length];
            rt.stdout().write_all(reported)?;
            if !reported.starts_with(b"E") && !list_agrees(bench, work, reported, other) {
                return Err(anyhow!("the two kinds of set give different reports"));
            }
            Ok(())
        }
        _ => Err(anyhow!("the answer does not fit its buffer")),
    }
}

fn run(rt: &HostRuntime) -> anyhow::Result<()> {
    let heap = rt.alloc();
    let mut bench = Bench::blank(heap)?;
    let mut work = vec![in heap; 0u8; WORK_LENGTH]?;
    let mut out = vec![in heap; 0u8; 1024]?;
    let mut other = vec![in heap; 0u8; 1024]?;
    for case in 0..CASES {
        let name = format!(in heap; "{case:03}.sheet")?;
        answer(
            rt,
            &mut bench,
            name.as_str(),
            work.as_mut_slice(),
            out.as_mut_slice(),
            other.as_mut_slice(),
        )?;
    }
    Ok(())
}

fn main(rt: HostRuntime) -> anyhow::Result<()> {
    run(&rt)
}
