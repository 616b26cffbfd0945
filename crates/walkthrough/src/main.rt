//! Takes one sheet from its text through its verdicts back to its text, and prints what was done.
#![tactic(auto)]

use bench::{Bench, TEXT_LIMIT, WORK_LENGTH};
use sets::{BitSet, StateSet, count};
use sheets::sheet::Sheet;
use std::fs;

/// How many moves a sheet has.
fn moves(sheet: &Sheet) -> usize {
    let states = sheet.states();
    states.iter().fold(
        0usize,
        |moves, state| moves.saturating_add(count(&state.successors, states.len())),
    )
}

/// Says what was read.
fn describe(rt: &HostRuntime, sheet: &Sheet) -> anyhow::Result<()> {
    let header = sheet.header();
    let number = header.number;
    println!(rt; "Read sheet {number}:")?;
    let parties = header.parties;
    let channels = header.channels;
    println!(rt; "  {parties} parties on {channels} channel(s)")?;
    let states = sheet.states().len();
    let moves = moves(sheet);
    println!(rt; "  {states} states with {moves} moves between them")?;
    let lines = sheet.rows().len();
    println!(rt; "  {lines} formula lines")?;
    Ok(())
}

/// Says at which states a line holds.
fn list_members(rt: &HostRuntime, set: &BitSet, states: usize) -> anyhow::Result<()> {
    for state in (0..states).filter(|state| set.has(*state)) {
        print!(rt; " {state}")?;
    }
    println!(rt; "")?;
    Ok(())
}

/// Judges each line, and says what came of it.
fn judge_lines(rt: &HostRuntime, bench: &Bench, work: &mut [u8]) -> anyhow::Result<()> {
    let mut set = BitSet::new();
    for line in 0..bench.sheet().rows().len() {
        match bench.judge(line, work, &mut set) {
            Ok(judgement) => {
                let rounds = judgement.rounds;
                let verdict = if judgement.verdict {
                    "holds at every start"
                } else {
                    "fails at some start"
                };
                print!(rt; "Line {line} {verdict}, found in {rounds} round(s); it holds at:")?;
                list_members(rt, &set, bench.sheet().states().len())?;
            }
            Err(refusal) => {
                let code = refusal.code();
                println!(rt; "Line {line} is refused with {code}")?;
            }
        }
    }
    Ok(())
}

/// Writes the sheet again, and says whether the bytes are those that were read.
fn write_again(rt: &HostRuntime, bench: &Bench, text: &[u8], out: &mut [u8]) -> anyhow::Result<()> {
    match bench.write(out) {
        Ok(length) if length <= out.len() => {
            let same = if &out[0..length] == text {
                "the same"
            } else {
                "other"
            };
            println!(rt; "Written again: {length} bytes, {same} bytes as were read")?;
        }
        Ok(_) => println!(rt; "Written beyond the buffer")?,
        Err(refusal) => {
            let code = refusal.code();
            println!(rt; "Writing is refused with {code}")?;
        }
    }
    Ok(())
}

fn run(rt: &HostRuntime) -> anyhow::Result<()> {
    let heap = rt.alloc();
    let text = fs::read(rt, "seven.sheet")?;
    let mut bench = Bench::blank(heap)?;
    let mut work = vec![in heap; 0u8; WORK_LENGTH]?;
    let mut out = vec![in heap; 0u8; TEXT_LIMIT]?;
    if let Err(fault) = bench.read(text.as_slice()) {
        let code = fault.refusal.code();
        let line = fault.place.line;
        let field = fault.place.field;
        println!(rt; "The sheet is refused with {code} at line {line}, field {field}")?;
        return Ok(());
    }
    describe(rt, bench.sheet())?;
    judge_lines(rt, &bench, work.as_mut_slice())?;
    write_again(rt, &bench, text.as_slice(), out.as_mut_slice())
}

fn main(rt: HostRuntime) -> anyhow::Result<()> {
    run(&rt)
}
