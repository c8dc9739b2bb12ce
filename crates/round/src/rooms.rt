// The rooms of a script's calls in the memory for placements.
ghost use Rattle.std.specs.Prelude.{◌≡◌, ◌-◌, ◌^◌, min};
ghost use Rattle.round.specs.Serving.{room_of, rooms as all_rooms};

use crate::script::Call;

// The room that a call takes in the memory for placements.
pub fn room_for(call: Call<'_>, trainees: usize) -> usize
    ensures { result ≡ room_of trainees call.entry }
{
    match call {
        Call::Allot(_, _) => trainees,
        Call::Challenge(_, room) => room,
        _ => 0,
    }
}

// The rooms of all calls together, as far as a number goes.
pub fn needed(script: &[Call<'_>], trainees: usize) -> usize
    ensures { result ≡ min (all_rooms trainees script.now) (2 ^ 64 - 1) }
{
    script.iter().fold(
        0,
        |n: usize, call| n.saturating_add(room_for(*call, trainees)),
    )
}
