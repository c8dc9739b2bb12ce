// A script of calls, made on a round that is opened over a register.
ghost use Rattle.std.specs.Prelude.{◌≡◌, length};
ghost use Rattle.rules.specs.Meaning.{meant};
ghost use Rattle.rules.specs.Refusals.{answer_of};
ghost use Rattle.round.specs.Serving.{serve_refusal, ServedAs};

use crate::makes::make;
use crate::rooms::{needed, room_for};
use crate::rounds::Round;
use crate::script::{Answer, Call, Served};
use rules::register::Register;
use rules::roll::Roll;
use rules::terms::Terms;
use rules::words::{Layer, Reason, Refusal};

// Whether there is memory for the answers, and for the rooms of all calls: the caller's three slices, each promised by itself, so a struct
// of them would be no shorter.
fn check_memory(
    script: &[Call<'_>],
    trainees: usize,
    answers: &[Answer],
    placements: &[u8],
) -> Result<(), Refusal>
    ensures { result ≡ answer_of (serve_refusal trainees script.now (length answers.now) (length placements.now)) }
{
    if answers.len() < script.len() {
        return Err(Layer::Round.refusal(Reason::WrongLength, script.len()));
    }
    let needed = needed(script, trainees);
    if placements.len() < needed {
        return Err(Layer::Round.refusal(Reason::WrongLength, needed));
    }
    Ok(())
}

// Opens a round over the register, makes every call of the script in turn, writes the answers, and hands the register back. The rooms
// of the calls stand one after another in `placements`: the seats of each successful allot, and the rivals.
pub fn serve<R: Register>(
    register: R,
    script: &[Call<'_>],
    answers: &mut [Answer],
    placements: &mut [u8],
) -> Served<R>
    ensures { ServedAs (meant R.Roll.entries R.Terms.rules register) script.now result.answer answers.old answers.new placements.old placements.new (meant R.Roll.entries R.Terms.rules result.register) }
{
    let trainees = register.trainees() as usize;
    let answer = check_memory(script, trainees, answers, placements);
    if answer.is_err() {
        return Served { register, answer };
    }
    let mut round = Round::over(register);
    // A zip over answers.iter_mut() and a shrinking split_at_mut of the placements were tried: the proof does not know what such a loop
    // leaves in either.
    let mut used = 0usize;
    for (i, call) in script.iter().enumerate() {
        let end = used + room_for(*call, trainees);
        answers[i] = make(&mut round, *call, &mut placements[used..end]);
        used = end;
    }
    Served {
        register: round.close(),
        answer,
    }
}
