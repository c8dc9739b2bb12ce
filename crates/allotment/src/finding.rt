// A heaviest placement by allot's weights decides: it is a fullest unbeaten one, or there is none.
ghost use Rattle.std.specs.Prelude.{◌≡◌, ℕ, ◌≤◌, false, length, None};
ghost use Rattle.rules.specs.Meaning.{trainees};
ghost use Rattle.voting.specs.Placements.{seating};
ghost use Rattle.voting.specs.Weights.{Heaviest};
ghost use Rattle.allotment.specs.Calls.{enough, Decided, Finds};
ghost use Rattle.allotment.specs.Copies.{entries};
ghost use Rattle.allotment.specs.Weights.{allot_weights, Holds};

use crate::by_firsts::ByFirsts;
use crate::filling::hold;
use crate::found::Found;
use crate::lists::Lists;
use crate::reading::{all_content, count_seated};
use assignment::place::place;
use assignment::table::Table;
use rules::words::{Layer, Move, Practice, Reason, Refusal, Trainee};

// What the heaviest placement decides.
fn decide(
    lists: &Lists,
    weighing: &ByFirsts,
    seats: [Option<Practice>; 400],
) -> Result<Found, Refusal>
    requires holds { Holds (entries lists.now) weighing.now }
    requires heaviest { Heaviest (entries lists.now) (allot_weights (entries lists.now)) (seating seats) }
    requires rest { (t : ℕ) → trainees (entries lists.now) ≤ t → seating seats t ≡ None }
    ensures { Decided (entries lists.now) result }
{
    if !all_content(lists, weighing, &seats) {
        return Err(Layer::Round.refusal(Reason::NoneUnbeaten, 0));
    }
    let seated = count_seated(&seats[..lists.lists.len()]) as u16;
    Ok(Found { seats, seated })
}

// A fullest unbeaten placement for a roll that was read, or the refusal that there is none.
#[inline(never)]
pub(crate) fn find_in(
    lists: &Lists,
    waiting: &mut [Trainee],
    moves: &mut [Move],
) -> Result<Found, Refusal>
    ensures finds { Finds (entries lists.now) (length waiting.old) (length moves.old) result }
    ensures slots { enough (entries lists.now) (length waiting.old) (length moves.old) ≡ false → (waiting.new ≡ waiting.old) × (moves.new ≡ moves.old) }
{
    let weighing = ByFirsts::of(lists);
    let mut table = Table::vacant();
    hold(lists, &weighing, &mut table);
    let placed = place(&table, waiting, moves)?;
    decide(lists, &weighing, placed.seats)
}
