// The moves of a search that ended are carried out.
ghost use Rattle.std.specs.Prelude.{◌≡◌, ℕ, ◌<◌, length};
ghost use Rattle.voting.specs.Placements.{stored};
ghost use Rattle.worklist.specs.Records.{records};
ghost use Rattle.assignment.specs.Moves.{mover};
ghost use Rattle.assignment.specs.States.{seats_in, value_in};
ghost use Rattle.assignment.specs.Walks.{Chain, Shifted, Unwound};

use crate::state::{End, TraineeState};
use rules::words::{Move, Practice};
use worklist::WorkList;

// The newest first, carries out each move that takes the seat left last.
fn unwind(
    trainees: &mut [TraineeState; 400],
    moves: &mut WorkList<'_, Move>,
    mut left: Option<Practice>,
)
    requires { (j : ℕ) → j < length (records moves.old) → mover (records moves.old) j < 400 }
    ensures seats { Unwound (seats_in trainees.old) (stored left) (length (records moves.old)) (seats_in trainees.new) (records moves.old) }
    ensures values { (t : ℕ) → value_in trainees.new t ≡ value_in trainees.old t }
{
    while let Some(step) = moves.take_newest() {
        if left == Some(step.taken) {
            trainees[step.trainee.0 as usize].seat = Some(step.taken);
            left = step.left;
        }
    }
}

// Seats the trainee at the end, and then each who takes the seat that was left.
pub(crate) fn follow(trainees: &mut [TraineeState; 400], moves: &mut WorkList<'_, Move>, end: End)
    requires { Chain (seats_in trainees.old) (records moves.old) end }
    ensures seats { Shifted (seats_in trainees.old) (seats_in trainees.new) (records moves.old) end }
    ensures values { (t : ℕ) → value_in trainees.new t ≡ value_in trainees.old t }
{
    let left = trainees[end.trainee].seat;
    trainees[end.trainee].seat = end.seat;
    unwind(trainees, moves, left);
}
