// The calls of a round. Each says what it does, and that the law of the account goes on with it, for every account so far.
ghost use Rattle.std.specs.Prelude.{◌≡◌, false, [], length, replicate, None};
ghost use Rattle.rules.specs.Meaning.{meant, trainees};
ghost use Rattle.rules.specs.Questions.{numbers};
ghost use Rattle.allotment.specs.Calls.{enough};
ghost use Rattle.round.specs.Account.{enters, sets_places, allots, asks_seat, challenges, Challenged};
ghost use Rattle.round.specs.Steps.{unplaced, enter_step, places_step, seat_answer, Allots, given, SeatsGiven};
ghost use Rattle.round.specs.Telling.{Tells, GoesOn};
ghost use Rattle.round.specs.Seen.{seen, numbered};

use crate::rounds::Round;
use crate::table::Table;
use allotment::calls;
use rules::register::Register;
use rules::roll::Roll;
use rules::terms::Terms;
use rules::words::{Layer, Move, Practice, Reason, Refusal, Trainee};

impl<R: Register> Round<R> {
    // Opens a round; no placement stands.
    pub fn over(register: R) -> Round<R>
        ensures exact { seen R.Roll.entries R.Terms.rules result ≡ unplaced (meant R.Roll.entries R.Terms.rules register) }
        ensures holds { result.register ≡ register }
        ensures empty { result.table.seats ≡ replicate 400 None }
        ensures law { Tells (meant R.Roll.entries R.Terms.rules register) [] (seen R.Roll.entries R.Terms.rules result) }
    {
        Round {
            register,
            table: Table::none(),
        }
    }

    // Closes the round and hands its register back.
    pub fn close(self) -> R
        ensures { result ≡ self.register }
    {
        self.register
    }

    // How many trainees there are.
    pub fn trainees(&self) -> u16
        ensures { result ≡ trainees (R.Roll.entries self.now.register) }
    {
        self.register.trainees()
    }

    // Replaces one trainee's list; when accepted, the standing placement lapses.
    pub fn enter(&mut self, t: Trainee, list: &[Practice]) -> Result<(), Refusal>
        ensures exact { enter_step (seen R.Roll.entries R.Terms.rules self.old) t.0 (numbers list.now) ≡ (result, seen R.Roll.entries R.Terms.rules self.new) }
        ensures law { GoesOn (seen R.Roll.entries R.Terms.rules self.old) (enters t.0 (numbers list.now) result) (seen R.Roll.entries R.Terms.rules self.new) }
    {
        self.register.enter(t, list)?;
        self.table.lapse(); // the list is new
        Ok(())
    }

    // Replaces one practice's places; when accepted, the standing placement lapses.
    pub fn places(&mut self, p: Practice, n: u16) -> Result<(), Refusal>
        ensures exact { places_step (seen R.Roll.entries R.Terms.rules self.old) p.0 n ≡ (result, seen R.Roll.entries R.Terms.rules self.new) }
        ensures law { GoesOn (seen R.Roll.entries R.Terms.rules self.old) (sets_places p.0 n result) (seen R.Roll.entries R.Terms.rules self.new) }
    {
        self.register.places(p, n)?;
        self.table.lapse(); // the places are new
        Ok(())
    }

    // The trainee's seat in the placement that stands.
    pub fn seat(&self, t: Trainee) -> Result<Option<Practice>, Refusal>
        ensures exact { numbered result ≡ seat_answer (seen R.Roll.entries R.Terms.rules self.now) t.0 }
        ensures law { GoesOn (seen R.Roll.entries R.Terms.rules self.now) (asks_seat t.0 (numbered result)) (seen R.Roll.entries R.Terms.rules self.now) }
    {
        if t.0 >= self.trainees() {
            return Err(Layer::Round.refusal(Reason::NoSuchTrainee, t.0 as usize));
        }
        self.table
            .seat(t)
            .ok_or(Layer::Round.refusal(Reason::NothingStands, t.0 as usize))
    }

    // A fullest unbeaten placement of the standing entries, which now stands, and how many it seats.
    pub fn allot(&mut self, waiting: &mut [Trainee], moves: &mut [Move]) -> Result<u16, Refusal>
        ensures exact { Allots (seen R.Roll.entries R.Terms.rules self.old) (length waiting.old) (length moves.old) result (seen R.Roll.entries R.Terms.rules self.new) }
        ensures keeps { self.new.register ≡ self.old.register }
        ensures seats { SeatsGiven result (seen R.Roll.entries R.Terms.rules self.new) }
        ensures slots { enough (R.Roll.entries self.old.register) (length waiting.old) (length moves.old) ≡ false → (waiting.new ≡ waiting.old) × (moves.new ≡ moves.old) }
        ensures law { GoesOn (seen R.Roll.entries R.Terms.rules self.old) (allots (length waiting.old) (length moves.old) (given result (seen R.Roll.entries R.Terms.rules self.new))) (seen R.Roll.entries R.Terms.rules self.new) }
    {
        let found = calls::find(&self.register, waiting, moves)?;
        self.table = Table::of(found.seats, found.seated);
        Ok(found.seated)
    }

    // The strongest rival of the offered placement for the standing entries, and its majority.
    pub fn challenge(&self, offered: &[u8], rival: &mut [u8]) -> Result<u16, Refusal>
        ensures exact { Challenged (R.Roll.entries self.now.register) offered.now rival.old result rival.new }
        ensures law { GoesOn (seen R.Roll.entries R.Terms.rules self.now) (challenges offered.now rival.old result rival.new) (seen R.Roll.entries R.Terms.rules self.now) }
    {
        calls::challenge(&self.register, offered, rival)
    }
}
