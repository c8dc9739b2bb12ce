// Trainees are placed one after another.
ghost use Rattle.std.specs.Prelude.{◌≡◌, ℕ, ◌+◌, ◌<◌, ◌≤◌, false, None, length};
ghost use Rattle.voting.specs.Placements.{stored, seating};
ghost use Rattle.worklist.specs.Records.{records};
ghost use Rattle.assignment.specs.Placing.{enough, Best, Answer};
ghost use Rattle.assignment.specs.States.{trainees_in, seat_of, Sound, Ready};
ghost use Rattle.assignment.specs.Steps.{Countable, Settled, Vacant};
ghost use Rattle.assignment.specs.Walks.{Chain};

use crate::moves::follow;
use crate::placed::Placed;
use crate::row::GREATEST;
use crate::search::Search;
use crate::state::{End, PracticeState, State, TraineeState};
use crate::table::Table;
use rules::words::{Layer, Move, Practice, Reason, Refusal, Trainee};
use worklist::WorkList;

impl State {
    // Nobody is placed yet.
    fn vacant() -> State
        ensures { Vacant result }
    {
        State {
            newcomer: 0,
            trainees: [TraineeState {
                seat: None,
                value: GREATEST,
            }; 400],
            practices: [PracticeState::default(); 100],
        }
    }

    // The newcomer is seated by the moves of a search and its end.
    fn settle(&mut self, moves: &mut WorkList<'_, Move>, end: End)
        requires chain { Chain (seat_of self.old) (records moves.old) end }
        requires room { Countable self.old (stored end.seat) }
        requires few { self.old.newcomer < 400 }
        ensures { Settled self.old self.new (records moves.old) end }
    {
        follow(&mut self.trainees, moves, end);
        if let Some(p) = end.seat {
            self.practices[p.0 as usize].count += 1;
        }
        self.newcomer += 1;
    }

    // The seat of each trainee, where none has one from the newcomer on.
    fn seats(&self) -> [Option<Practice>; 400]
        requires few { self.now.newcomer ≤ 400 }
        requires later { (t : ℕ) → self.now.newcomer ≤ t → seat_of self.now t ≡ None }
        ensures { (t : ℕ) → seating result t ≡ seat_of self.now t }
    {
        let mut seats = [None; 400];
        for (t, trainee) in self.trainees[..self.newcomer].iter().enumerate() {
            seats[t] = trainee.seat;
        }
        seats
    }
}

// One more trainee is placed: searches, with prices going up in between, until one ends. The slots stay two slices with a clause each, down to the two
// working lists that take them.
fn take_in(table: &Table, state: &mut State, waiting: &mut [Trainee], moves: &mut [Move])
    requires ready { Ready table.now state.old }
    requires spots { trainees_in table.now ≤ length waiting.old }
    requires slots { trainees_in table.now ≤ length moves.old }
    ensures sound { Sound table.now state.new }
    ensures newcomer { state.new.newcomer ≡ state.old.newcomer + 1 }
{
    loop {
        let mut search = Search::begin(table, state, waiting, moves);
        if let Some(end) = search.reach() {
            let mut steps = search.moves;
            state.settle(&mut steps, end);
            return;
        }
        let d = search.slack();
        let reached = search.reached;
        state.raise(&reached, d);
    }
}

// Places all trainees of the table.
fn place_all(table: &Table, waiting: &mut [Trainee], moves: &mut [Move]) -> Placed
    requires spots { trainees_in table.now ≤ length waiting.old }
    requires slots { trainees_in table.now ≤ length moves.old }
    ensures { Best table.now result }
{
    let mut state = State::vacant();
    for _ in 0..table.rows.len() {
        take_in(table, &mut state, waiting, moves);
    }
    Placed {
        seats: state.seats(),
    }
}

/// A placement of greatest weight; refused with fewer slots of either kind than trainees.
// The two slices stay parameters down to the search: each is promised back by its own name, and becomes a list of its own there.
pub fn place(table: &Table, waiting: &mut [Trainee], moves: &mut [Move]) -> Result<Placed, Refusal>
    ensures answer { Answer table.now (enough table.now (length waiting.old) (length moves.old)) result }
    ensures slots { enough table.now (length waiting.old) (length moves.old) ≡ false → (waiting.new ≡ waiting.old) × (moves.new ≡ moves.old) }
{
    let trainees = table.rows.len();
    if waiting.len() < trainees || moves.len() < trainees {
        return Err(Layer::Round.refusal(Reason::WrongLength, trainees));
    }
    Ok(place_all(table, waiting, moves))
}
