use crate::graphs::{all_below, chain};
use fixpoints::{Lasso, NoRoom, globally, globally_path, until, until_path};
use search::{BitRows, Graph, Reversed};
use sets::{BitSet, SortedList, StateSet, count};
use std::process::Abort;

/// A state below the capacity goes in and comes out; one that is not is refused, and is never a member.
fn edge<S: StateSet>(rt: &impl Abort, set: &mut S, state: usize) {
    let fits = state < S::limit();
    assert_eq!(rt; set.put(state), fits);
    assert_eq!(rt; set.has(state), fits);
    assert_eq!(rt; set.put(state), fits);
    assert_eq!(rt; count(set, 256), usize::from(fits));
    set.take(state);
    assert_eq!(rt; set.has(state), false);
    set.take(state);
    assert_eq!(rt; count(set, 256), 0);
}

/// The same calls for every kind of set.
fn set_calls<S: StateSet>(rt: &impl Abort, set: &mut S, other: &mut S) {
    edge(rt, set, 0);
    edge(rt, set, 63);
    edge(rt, set, 64);
    edge(rt, set, 127);
    edge(rt, set, 128);
    let _ = set.put(5);
    let _ = set.put(2);
    let _ = other.put(63);
    let _ = other.put(5);
    set.join(other);
    assert_eq!(rt; count(set, 64), 3);
    assert_eq!(rt; set.has(63), true);
    assert_eq!(rt; count(other, 64), 2);
    set.clear();
    assert_eq!(rt; count(set, 64), 0);
    assert_eq!(rt; other.has(5), true);
}

#[test]
fn sets_keep_their_rules(rt: HostRuntime) {
    set_calls(&rt, &mut BitSet::new(), &mut BitSet::new());
    set_calls(&rt, &mut SortedList::new(), &mut SortedList::new());
}

#[test]
fn capacities(rt: HostRuntime) {
    assert_eq!(rt; BitSet::CAPACITY, 128);
    assert_eq!(rt; SortedList::CAPACITY, 64);
}

/// On a chain of n states until and globally take n - 1 rounds, and the path goes through all states.
fn chain_searches<S: StateSet>(rt: &impl Abort, set: &mut S, states: usize) {
    assert!(rt; 1 < states && states <= 128);
    let last = states - 1;
    let rows = chain(states, last);
    let rule = BitRows { rows: &rows };
    let graph = Graph {
        rule: &rule,
        states,
    };
    let all = all_below(states);
    let mut end = BitSet::new();
    let _ = end.put(last);
    let mut slots = [0; 256];
    assert_eq!(rt; until(&graph, &all, &end, set, &mut slots), Ok(last));
    assert_eq!(rt; count(set, states), states);
    assert_eq!(rt;
        globally(&graph, &all_below(last), set, &mut slots),
        Ok(last)
    );
    assert_eq!(rt; count(set, states), 0);
    let mut path = [200; 128];
    assert_eq!(rt;
        until_path(&graph, &all, &end, 0, set, &mut slots, &mut path),
        Ok(Some(states))
    );
    for (place, state) in path[..states].iter().enumerate() {
        assert_eq!(rt; usize::from(*state), place);
    }
}

#[test]
fn chains_take_one_round_less_than_their_states(rt: HostRuntime) {
    chain_searches(&rt, &mut BitSet::new(), 128);
    chain_searches(&rt, &mut BitSet::new(), 64);
    chain_searches(&rt, &mut SortedList::new(), 64);
}

/// A chain whose last state leads back to its middle: the path that comes back has all its states.
fn chain_comes_back<S: StateSet>(rt: &impl Abort, set: &mut S, states: usize) {
    assert!(rt; 1 < states && states <= 128);
    let middle = states / 2;
    let rows = chain(states, middle);
    let rule = BitRows { rows: &rows };
    let graph = Graph {
        rule: &rule,
        states,
    };
    let mut slots = [0; 256];
    let mut path = [200; 128];
    let all = all_below(states);
    assert_eq!(rt;
        globally_path(&graph, &all, 0, set, &mut slots, &mut path),
        Ok(Some(Lasso {
            length: states,
            place: middle,
        }))
    );
    assert_eq!(rt; count(set, states), states);
    assert_eq!(rt;
        globally_path(&graph, &all_below(middle), 0, set, &mut slots, &mut path),
        Ok(None)
    );
    assert_eq!(rt; count(set, states), 0);
}

#[test]
fn lassos(rt: HostRuntime) {
    chain_comes_back(&rt, &mut BitSet::new(), 128);
    chain_comes_back(&rt, &mut SortedList::new(), 64);
}

/// With less room than the states need, nothing is touched.
fn refuses<S: StateSet>(rt: &impl Abort, set: &mut S, states: usize, path: &mut [u8]) {
    let rows = chain(states, 0);
    let rule = BitRows { rows: &rows };
    let graph = Graph {
        rule: &rule,
        states,
    };
    let all = all_below(states);
    let mut slots = [0; 256];
    set.clear();
    let _ = set.put(7);
    assert_eq!(rt;
        until_path(&graph, &all, &all, 0, set, &mut slots, path),
        Err(NoRoom)
    );
    assert_eq!(rt;
        globally_path(&graph, &all, 0, set, &mut slots, path),
        Err(NoRoom)
    );
    assert_eq!(rt; count(set, 64), 1);
    assert_eq!(rt; set.has(7), true);
    for byte in path {
        assert_eq!(rt; *byte, 200);
    }
}

#[test]
fn too_little_room(rt: HostRuntime) {
    refuses(&rt, &mut SortedList::new(), 65, &mut [200; 128]);
    refuses(&rt, &mut BitSet::new(), 128, &mut [200; 127]);
}

#[test]
fn steps(rt: HostRuntime) {
    let rows = [0b110, 0b100, 0];
    let rule = BitRows { rows: &rows };
    let mut goal = BitSet::new();
    let _ = goal.put(1);
    let mut set = SortedList::new();
    let graph = Graph {
        rule: &rule,
        states: 3,
    };
    let reversed = Reversed(&rule);
    let back = Graph {
        rule: &reversed,
        states: 3,
    };
    assert_eq!(rt; graph.next(&goal, &mut set), Ok(()));
    assert_eq!(rt; set.has(0) && count(&set, 3) == 1, true);
    assert_eq!(rt; back.next(&goal, &mut set), Ok(()));
    assert_eq!(rt; set.has(2) && count(&set, 3) == 1, true);
    assert_eq!(rt; graph.lowest_without_step(), Some(2));
    assert_eq!(rt; back.lowest_without_step(), Some(0));
}
