use crate::examples::{INACCESSIBLE, SEVEN, chain};
use bench::{Bench, WORK_LENGTH};
use judging::judge::Judgement;
use sets::{BitSet, SortedList, StateSet};
use std::process::Abort;
use std::test::Fail;
use texts::refusal::Refusal;

/// Whether a set has just the states that are set in the bits of `members`, of those below 128.
fn has_just<S: StateSet>(set: &S, members: u128) -> bool {
    let expected = BitSet::from_bits(members);
    (0..128).all(|state| set.has(state) == expected.has(state))
}

/// Judges a line on a set that holds something else before, and compares the answer and the set.
fn judges<S: StateSet>(
    rt: &impl Abort,
    bench: &Bench,
    line: usize,
    set: &mut S,
    members: u128,
    verdict: bool,
    rounds: usize,
) {
    let mut work = [0; WORK_LENGTH];
    set.clear();
    let _ = set.put(50);
    assert_eq!(rt;
        bench.judge(line, &mut work, set),
        Ok(Judgement { verdict, rounds })
    );
    assert_eq!(rt; has_just(set, members), true);
}

/// The six lines of sheet 7.
fn seven_lines<S: StateSet>(rt: &impl Abort, bench: &Bench, set: &mut S) {
    judges(rt, bench, 0, set, 0b100, false, 0);
    judges(rt, bench, 1, set, 0b110, false, 0);
    judges(rt, bench, 2, set, 0b100, false, 0);
    judges(rt, bench, 3, set, 0b110, false, 1);
    judges(rt, bench, 4, set, 0b011, true, 0);
    judges(rt, bench, 5, set, 0b000, false, 2);
}

#[test]
fn the_worked_example(rt: HostRuntime) -> Result<(), Fail> {
    let mut bench = Bench::blank(rt.alloc())?;
    assert!(rt; bench.read(SEVEN).is_ok());
    seven_lines(&rt, &bench, &mut BitSet::new());
    seven_lines(&rt, &bench, &mut SortedList::new());
    Ok(())
}

#[test]
fn a_commitment_holds_where_nothing_is_accessible(rt: HostRuntime) -> Result<(), Fail> {
    let mut bench = Bench::blank(rt.alloc())?;
    assert!(rt; bench.read(INACCESSIBLE).is_ok());
    judges(&rt, &bench, 0, &mut BitSet::new(), 0, false, 0);
    judges(&rt, &bench, 1, &mut BitSet::new(), 0b11, true, 0);
    judges(&rt, &bench, 1, &mut SortedList::new(), 0b11, true, 0);
    judges(&rt, &bench, 2, &mut SortedList::new(), 0, false, 0);
    Ok(())
}

#[test]
fn refusals_leave_the_set(rt: HostRuntime) -> Result<(), Fail> {
    let mut bench = Bench::blank(rt.alloc())?;
    let mut work = [0; WORK_LENGTH];
    let mut short = [0; WORK_LENGTH - 1];
    let mut set = SortedList::new();
    let _ = set.put(7);
    assert_eq!(rt; bench.judge(0, &mut work, &mut set), Err(Refusal::Blank));
    assert!(rt; bench.read(chain(rt.alloc(), 65)?.as_bytes()).is_ok());
    assert_eq!(rt;
        bench.judge(2, &mut work, &mut set),
        Err(Refusal::NoSuchLine)
    );
    assert_eq!(rt;
        bench.judge(1, &mut short, &mut set),
        Err(Refusal::ShortBuffer)
    );
    assert_eq!(rt;
        bench.judge(1, &mut work, &mut set),
        Err(Refusal::SetTooSmall)
    );
    assert_eq!(rt; has_just(&set, 1 << 7), true);
    Ok(())
}

#[test]
fn the_list_judges_64_states(rt: HostRuntime) -> Result<(), Fail> {
    let mut bench = Bench::blank(rt.alloc())?;
    assert!(rt; bench.read(chain(rt.alloc(), 64)?.as_bytes()).is_ok());
    judges(
        &rt,
        &bench,
        1,
        &mut SortedList::new(),
        (1 << 64) - 1,
        true,
        0,
    );
    assert!(rt; bench.read(chain(rt.alloc(), 128)?.as_bytes()).is_ok());
    judges(&rt, &bench, 1, &mut BitSet::new(), u128::MAX, true, 0);
    Ok(())
}
