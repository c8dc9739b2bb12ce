// The calls: find, allot and challenge on any roll.
ghost use Rattle.std.specs.Prelude.{◌≡◌, ℕ, true, false, length, Option};
ghost use Rattle.voting.specs.Placements.{Placement};
ghost use Rattle.allotment.specs.Calls.{enough, Finds, Verdict, roomy, allot_outcome, Rival, challenge_outcome};

use crate::bytes::write_seats;
use crate::challenging::challenge_in;
use crate::finding::find_in;
use crate::fits::check_fit;
use crate::found::Found;
use crate::load::read;
use rules::roll::Roll;
use rules::words::{Layer, Move, Reason, Refusal, Trainee};

// The two kinds of slots stay apart, here and below: each is promised back by its own name.

/// A fullest unbeaten placement, or the refusal that there is none; 9 with fewer slots of either kind than trainees.
pub fn find<R: Roll>(
    roll: &R,
    waiting: &mut [Trainee],
    moves: &mut [Move],
) -> Result<Found, Refusal>
    ensures finds { Finds (R.Roll.entries roll.now) (length waiting.old) (length moves.old) result }
    ensures slots { enough (R.Roll.entries roll.now) (length waiting.old) (length moves.old) ≡ false → (waiting.new ≡ waiting.old) × (moves.new ≡ moves.old) }
{
    find_in(&read(roll), waiting, moves)
}

/// Finds, and writes one byte a trainee into the first bytes of `seats`; 9 also where these are fewer than the trainees.
pub fn allot<R: Roll>(
    roll: &R,
    waiting: &mut [Trainee],
    moves: &mut [Move],
    seats: &mut [u8],
) -> Result<u16, Refusal>
    ensures allots { (v : Option Placement) × (roomy (R.Roll.entries roll.now) (length waiting.old) (length moves.old) seats.old ≡ true → Verdict (R.Roll.entries roll.now) v) × (allot_outcome (R.Roll.entries roll.now) (length waiting.old) (length moves.old) seats.old v ≡ (result, seats.new)) }
    ensures slots { roomy (R.Roll.entries roll.now) (length waiting.old) (length moves.old) seats.old ≡ false → (waiting.new ≡ waiting.old) × (moves.new ≡ moves.old) }
{
    let n = roll.trainees() as usize;
    if seats.len() < n {
        return Err(Layer::Round.refusal(Reason::WrongLength, n));
    }
    let found = find(roll, waiting, moves)?;
    write_seats(&found.seats[..n], seats);
    Ok(found.seated)
}

/// The greatest majority over what is offered, with a strongest rival in the first bytes of `rival`.
pub fn challenge<R: Roll>(roll: &R, offered: &[u8], rival: &mut [u8]) -> Result<u16, Refusal>
    ensures { (k : ℕ) × (N : Placement) × Rival (R.Roll.entries roll.now) offered.now (length rival.old) k N × (challenge_outcome (R.Roll.entries roll.now) offered.now rival.old k N ≡ (result, rival.new)) }
{
    let n = roll.trainees() as usize;
    if offered.len() != n || rival.len() < n {
        return Err(Layer::Round.refusal(Reason::WrongLength, n));
    }
    check_fit(roll, offered)?;
    Ok(challenge_in(&read(roll), offered, rival))
}
