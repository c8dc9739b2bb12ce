// The prices go up, and the values down.
ghost use Rattle.std.specs.Prelude.{◌≡◌, ℕ, ◌<◌, ◌≤◌, None};
ghost use Rattle.voting.specs.Placements.{stored};
ghost use Rattle.assignment.specs.Raises.{Raised, Raisable, Lowered, Lowerable, Rise};
ghost use Rattle.assignment.specs.Searches.{inside};
ghost use Rattle.assignment.specs.States.{price_in, count_in, seats_in, value_in, price, value, seat_of};

use crate::state::{PracticeState, State, TraineeState};
use rules::words::Practice;

// Whether the seat is at a practice that was reached.
pub(crate) fn is_inside(reached: &[bool; 100], seat: Option<Practice>) -> bool
    ensures { result ≡ inside reached.now (stored seat) }
{
    seat.is_some_and(|p| reached.get(p.0 as usize).copied().unwrap_or(false))
}

// The price of each practice that was reached goes up by d. What was reached comes from a search that is over, so these are no methods of it.
fn raise_prices(practices: &mut [PracticeState; 100], reached: &[bool; 100], d: u32)
    requires { Raisable (price_in practices.old) reached.now d }
    ensures prices { Raised (price_in practices.old) (price_in practices.new) reached.now d }
    ensures counts { (p : ℕ) → count_in practices.new p ≡ count_in practices.old p }
{
    // By number: nothing is known of a slice after a zip of its iter_mut (tried).
    for (p, practice) in practices.iter_mut().enumerate() {
        if reached[p] {
            practice.price += d;
        }
    }
}

// The value of each who was reached goes down by d.
fn lower_values(trainees: &mut [TraineeState; 400], newcomer: usize, reached: &[bool; 100], d: u32)
    requires few { newcomer < 400 }
    requires later { (t : ℕ) → newcomer < t → seats_in trainees.old t ≡ None }
    requires values { Lowerable (value_in trainees.old) newcomer (seats_in trainees.old) reached.now d }
    ensures values { Lowered (value_in trainees.old) (value_in trainees.new) newcomer (seats_in trainees.old) reached.now d }
    ensures seats { (t : ℕ) → seats_in trainees.new t ≡ seats_in trainees.old t }
{
    for (t, trainee) in trainees[..=newcomer].iter_mut().enumerate() {
        if t == newcomer || is_inside(reached, trainee.seat) {
            trainee.value -= d;
        }
    }
}

impl State {
    // Prices up, values down.
    pub(crate) fn raise(&mut self, reached: &[bool; 100], d: u32)
        requires prices { Raisable (price self.old) reached.now d }
        requires few { self.old.newcomer < 400 }
        requires later { (t : ℕ) → self.old.newcomer ≤ t → seat_of self.old t ≡ None }
        requires values { Lowerable (value self.old) self.old.newcomer (seat_of self.old) reached.now d }
        ensures { Rise self.old self.new reached.now d }
    {
        raise_prices(&mut self.practices, reached, d);
        lower_values(&mut self.trainees, self.newcomer, reached, d);
    }
}
