// Whether an offered placement fits the places, trainee by trainee.
ghost use Rattle.std.specs.Prelude.{◌≡◌, ℕ, ◌+◌, ◌<◌, length, slice_index};
ghost use Rattle.rules.specs.Meaning.{trainees};
ghost use Rattle.rules.specs.Refusals.{answer_of};
ghost use Rattle.voting.specs.Totals.{one};
ghost use Rattle.voting.specs.Placements.{stored, sits};
ghost use Rattle.allotment.specs.Bytes.{offered_by};
ghost use Rattle.allotment.specs.Calls.{first_unfit, not_feasible};
ghost use Rattle.allotment.specs.Counts.{Below, seat_fits};

use crate::bytes::seat_of;
use rules::roll::Roll;
use rules::words::{Layer, Practice, Reason, Refusal, Trainee};

// One more is counted at the seat.
fn count_in(counts: &mut [u16; 100], seat: Option<Practice>)
    requires below { Below 100 (stored seat) }
    requires few { (p : ℕ) → slice_index counts.old p < 65535 }
    ensures { (p : ℕ) → slice_index counts.new p ≡ slice_index counts.old p + one (sits (stored seat) p) }
{
    if let Some(p) = seat {
        counts[p.0 as usize] += 1;
    }
}

// Whether the seat is none or on the list, with a place left beside those counted.
fn is_fit<R: Roll>(roll: &R, t: Trainee, seat: Option<Practice>, counts: &[u16; 100]) -> bool
    ensures { result ≡ seat_fits (R.Roll.entries roll.now) t.0 counts.now (stored seat) }
{
    let Some(p) = seat else {
        return true;
    };
    roll.position(t, p).is_some() && counts[p.0 as usize] < roll.places_of(p)
}

// Refuses at the lowest trainee whose offered seat is unlisted, or full by lower trainees.
pub(crate) fn check_fit<R: Roll>(roll: &R, offered: &[u8]) -> Result<(), Refusal>
    requires { length offered.now ≡ trainees (R.Roll.entries roll.now) }
    ensures { result ≡ answer_of (not_feasible (first_unfit (R.Roll.entries roll.now) (offered_by offered.now) (trainees (R.Roll.entries roll.now)))) }
{
    let mut counts = [0; 100]; // for each practice that a roll may have, with no heap
    for (t, byte) in offered.iter().enumerate() {
        let seat = seat_of(*byte);
        if !is_fit(roll, Trainee(t as u16), seat, &counts) {
            return Err(Layer::Round.refusal(Reason::NotFeasible, t));
        }
        count_in(&mut counts, seat);
    }
    Ok(())
}
