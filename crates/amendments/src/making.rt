ghost use Rattle.std.specs.Prelude.{◌≡◌, ℕ, ◌<◌, ◌≤◌, length, if◌then◌else◌, nat_eq, slice_index_or};
ghost use Rattle.semantics.specs.Edits.{join_move, cut_move, set_marks, set_value, the_position, the_copy};
ghost use Rattle.amendments.specs.Making.{Makes};

use sets::StateSet;
use sheets::parts::State;

/// Makes a move from `from` to `to`.
fn put_move(states: &mut [State], from: usize, to: usize)
    requires { (from < length states.old) × (to < length states.old) × (length states.old ≤ 128) }
    ensures { Makes states.old states.new (join_move from to) }
{
    let _ = states[from].successors.put(to);
}

/// Takes the move from `from` to `to` out.
fn take_move(states: &mut [State], from: usize, to: usize)
    requires { (from < length states.old) × (to < length states.old) }
    ensures { Makes states.old states.new (cut_move from to) }
{
    states[from].successors.take(to);
}

/// Makes the marks of a state those of `sum`.
fn set_marks(states: &mut [State], at: usize, sum: u16)
    requires { at < length states.old }
    ensures { Makes states.old states.new (set_marks at sum) }
{
    states[at].marks = sum;
}

/// Puts `item` at a place of an array. Where the array stands inside an element of a slice, a proof knows its
/// length only through such a call.
fn put<T: Copy, const N: usize>(items: &mut [T; N], at: usize, item: T)
    requires { at < N }
    ensures { (k : ℕ) (none : T) → slice_index_or items.new k none ≡ (if nat_eq k at then item else slice_index_or items.old k none) }
{
    items[at] = item;
}

/// Makes the position of a party at a state `number`.
fn set_position(states: &mut [State], at: usize, party: usize, number: u16)
    requires { (at < length states.old) × (party < 6) }
    ensures { Makes states.old states.new (set_value at party the_position number) }
{
    let mut local = states[at].locals[party];
    local.position = number;
    put(&mut states[at].locals, party, local);
}

/// Makes the copy that a party has of a channel at a state `number`.
fn set_copy(states: &mut [State], at: usize, party: usize, channel: usize, number: u16)
    requires { (at < length states.old) × (party < 6) × (channel < 8) }
    ensures { Makes states.old states.new (set_value at party (the_copy channel) number) }
{
    let mut local = states[at].locals[party];
    put(&mut local.copies, channel, number);
    put(&mut states[at].locals, party, local);
}
