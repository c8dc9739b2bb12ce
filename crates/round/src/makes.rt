// The calls of a script, made one at a time.
ghost use Rattle.std.specs.Prelude.{◌≡◌, min, length};
ghost use Rattle.rules.specs.Meaning.{trainees};
ghost use Rattle.round.specs.Account.{allots};
ghost use Rattle.round.specs.Steps.{Allots, given};
ghost use Rattle.round.specs.Telling.{GoesOn};
ghost use Rattle.round.specs.Seen.{seen};
ghost use Rattle.round.specs.Serving.{room_of};
ghost use Rattle.round.specs.Making.{Makes, noted};

use crate::notes::note;
use crate::rounds::Round;
use crate::script::{Answer, Call};
use rules::register::Register;
use rules::roll::Roll;
use rules::terms::Terms;
use rules::words::{Move, Practice, Refusal, Trainee};

// An allot with `w` and `k` slots that leaves the seats given in its room.
fn allot_noted<R: Register>(
    round: &mut Round<R>,
    w: usize,
    k: usize,
    room: &mut [u8],
) -> Result<u16, Refusal>
    requires { length room.old ≡ trainees (R.Roll.entries round.old.register) }
    ensures room { room.new ≡ noted result (seen R.Roll.entries R.Terms.rules round.new) room.old }
    ensures law { GoesOn (seen R.Roll.entries R.Terms.rules round.old) (allots w k (given result (seen R.Roll.entries R.Terms.rules round.new))) (seen R.Roll.entries R.Terms.rules round.new) }
{
    let mut waiting = [Trainee::default(); 400];
    let mut moves = [Move::default(); 400];
    let (w, k) = (w.min(400), k.min(400)); // no roll has more trainees
    let seated = round.allot(&mut waiting[..w], &mut moves[..k])?;
    note(round, room);
    Ok(seated)
}

// Makes one call of a script.
pub(crate) fn make<R: Register>(round: &mut Round<R>, call: Call<'_>, room: &mut [u8]) -> Answer
    requires { length room.old ≡ room_of (trainees (R.Roll.entries round.old.register)) call }
    ensures { Makes (trainees (R.Roll.entries round.old.register)) (seen R.Roll.entries R.Terms.rules round.old) call.entry result room.old room.new (seen R.Roll.entries R.Terms.rules round.new) }
{
    match call {
        Call::Enter(t, list) => Answer::Entered(round.enter(t, list)),
        Call::Places(p, n) => Answer::Placed(round.places(p, n)),
        Call::Allot(w, k) => Answer::Allotted(allot_noted(round, w, k, room)),
        Call::Seat(t) => Answer::Seated(round.seat(t)),
        Call::Challenge(offered, _) => Answer::Challenged(round.challenge(offered, room)),
    }
}
