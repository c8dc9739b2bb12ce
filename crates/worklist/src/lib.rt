// The work list: records in slots that the caller lends, used round and round.
#![tactic(auto)]

ghost use Rattle.std.specs.Prelude.{◌-◌, ◌≤◌, length};

mod calls;

/// The oldest record stands at `head`, and the others follow it, from the last slot on to the first.
// The slots are lent, not owned, since nothing below the programs has a heap and their number is the caller's.
#[derive(Drop)]
pub struct WorkList<'a, T> {
    slots: &'a mut [T],
    head: usize,
    len: usize,
    ghost within: { (len ≤ length slots.now) × (head ≤ length slots.now - 1) },
}
