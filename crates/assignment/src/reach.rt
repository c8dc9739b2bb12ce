// One search: from the newcomer along tight seats.
ghost use Rattle.std.specs.Prelude.{◌≡◌, ◌+◌, ◌≤◌, length};
ghost use Rattle.voting.specs.Placements.{seated_at};
ghost use Rattle.worklist.specs.Records.{records, room};
ghost use Rattle.assignment.specs.Searches.{Queued, Grown, Probed, Scanned, Sought, Covered};
ghost use Rattle.assignment.specs.Progress.{progress, Kept, Comes, IsChoice};
ghost use Rattle.assignment.specs.States.{trainees_in, seat_of, value, price, Ready};

use crate::row::Choice;
use crate::search::Search;
use crate::state::{End, State};
use crate::table::Table;
use rules::words::{Move, Practice, Trainee};
use worklist::WorkList;

// Lets all wait who sit at p. Not a method, since what a search's type says of it holds again only when they wait.
fn let_wait(state: &State, waiting: &mut WorkList<'_, Trainee>, p: Practice)
    requires few { state.now.newcomer ≤ 400 }
    requires spots { length (records waiting.old) + seated_at state.now.newcomer (seat_of state.now) p.0 ≤ room waiting.old }
    ensures queued { Queued state.now state.now.newcomer p.0 (records waiting.old) (records waiting.new) }
    ensures room { room waiting.new ≡ room waiting.old }
{
    for (t, trainee) in state.trainees[..state.newcomer].iter().enumerate() {
        if trainee.seat == Some(p) {
            let _ = waiting.add(Trainee(t as u16));
        }
    }
}

impl<'a, 's> Search<'a, 's> {
    // The newcomer alone waits, and no practice was reached.
    pub(crate) fn begin(
        table: &'a Table,
        state: &'a State,
        waiting: &'s mut [Trainee],
        moves: &'s mut [Move],
    ) -> Search<'a, 's>
        requires ready { Ready table.now state.now }
        requires spots { trainees_in table.now ≤ length waiting.old }
        requires slots { trainees_in table.now ≤ length moves.old }
        ensures table { result.table.now ≡ table.now }
        ensures state { result.state.now ≡ state.now }
        ensures covered { Covered table.now state.now (progress result) }
    {
        let mut queue = WorkList::new(waiting);
        let _ = queue.add(Trainee(state.newcomer as u16));
        Search {
            table,
            state,
            moves: WorkList::new(moves),
            waiting: queue,
            reached: [false; 100],
        }
    }

    // What the choice of t lacks to be tight.
    pub(crate) fn gap(&self, t: usize, choice: Choice) -> u32
        requires { IsChoice self.now.table.now t choice }
        ensures { choice.weight + result ≡ value self.now.state.now t + price self.now.state.now choice.practice.0 }
    {
        let value = self.state.trainees[t].value;
        let price = self.state.practices[choice.practice.0 as usize].price;
        value + price - choice.weight
    }

    // Looks at a choice of t: whether the search may end there. A full one that is new is noted.
    fn probe(&mut self, t: usize, choice: Choice) -> bool
        requires comes { Comes self.old t }
        requires within { IsChoice self.old.table.now t choice }
        ensures kept { Kept self.old self.new }
        ensures grown { Grown self.old.table.now self.old.state.now (progress self.old) (progress self.new) }
        ensures probed { Probed self.old.table.now self.old.state.now self.new.reached t choice.practice.0 result }
    {
        let taken = choice.practice;
        let p = taken.0 as usize;
        if self.reached[p] || self.gap(t, choice) != 0 {
            return false;
        }
        if self.state.practices[p].count < self.table.places[p] {
            return true;
        }
        let _ = self.moves.add(Move {
            trainee: Trainee(t as u16),
            left: self.state.trainees[t].seat,
            taken,
        });
        self.reached[p] = true;
        let_wait(self.state, &mut self.waiting, taken);
        false
    }

    // Looks at all seats of t: one where the search may end, or all tight ones are reached.
    fn scan(&mut self, t: usize) -> Option<Option<Practice>>
        requires { Comes self.old t }
        ensures kept { Kept self.old self.new }
        ensures grown { Grown self.old.table.now self.old.state.now (progress self.old) (progress self.new) }
        ensures scanned { Scanned self.old.table.now self.old.state.now self.new.reached t result }
    {
        let row = self.table.row(t);
        if row.none == self.state.trainees[t].value {
            return Some(None);
        }
        for choice in row.list() {
            if self.probe(t, *choice) {
                return Some(Some(choice.practice));
            }
        }
        None
    }

    // Goes on to an end of the search, or to all that it reaches.
    pub(crate) fn reach(&mut self) -> Option<End>
        requires { Covered self.old.table.now self.old.state.now (progress self.old) }
        ensures kept { Kept self.old self.new }
        ensures sought { Sought self.old.table.now self.old.state.now self.new.reached result }
    {
        while let Some(next) = self.waiting.take_oldest() {
            let trainee = next.0 as usize;
            if let Some(seat) = self.scan(trainee) {
                return Some(End { trainee, seat });
            }
        }
        None
    }
}
