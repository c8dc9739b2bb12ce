// What a placement says: who has a seat, and what the seats weigh.
ghost use Rattle.std.specs.Prelude.{◌≡◌, ◌==◌, ◌||◌, ◌^◌, ◌<◌, map, length, is_some, nat_lt, sum, count_by};
ghost use Rattle.std.specs.List.{list_all};
ghost use Rattle.voting.specs.Placements.{stored};
ghost use Rattle.allotment.specs.Vectors.{chosen};
ghost use Rattle.allotment.specs.Tabled.{beside, weight_at, content_at};

use crate::lists::Lists;
use crate::weights::Weigh;
use arrayvec::ArrayVec;
use rules::words::{Practice, Trainee};

// How many have a seat.
pub(crate) fn count_seated(seats: &[Option<Practice>]) -> usize
    ensures { result ≡ count_by is_some seats.now }
{
    seats.iter().filter(|seat| seat.is_some()).count()
}

// Whether a trainee has no list, or a seat that weighs something.
fn is_content<W: Weigh>(
    weighing: &W,
    t: Trainee,
    list: &ArrayVec<Practice, 12>,
    seat: Option<Practice>,
) -> bool
    ensures { result ≡ ((length list.now.items == 0) || nat_lt 0 (W.Weigh.weighs weighing.now t.0 (chosen list.now) (stored seat))) }
{
    list.is_empty() || weighing.weigh(t, list, seat) > 0
}

// Lists and weighing stay apart, here and in filling: one reading of a roll serves whatever weighing is asked.

// The chain of lists, seats and numbers stands twice: no function can answer an iterator without naming its type.

// Whether each trainee with a list has a seat that weighs something. The numbers of the trainees run beside them: a roll has 400 at most.
pub(crate) fn all_content<W: Weigh>(lists: &Lists, weighing: &W, seats: &[Option<Practice>]) -> bool
    ensures { result ≡ list_all (content_at (W.Weigh.weighs weighing.now)) (beside lists.now.lists.items seats.now) }
{
    lists.lists.iter().zip(seats).zip(0..400).all(|((list, seat), t)| is_content(
        weighing,
        Trainee(t),
        list,
        *seat,
    ))
}

// What all seats weigh together.
pub(crate) fn whole_weight<W: Weigh>(lists: &Lists, weighing: &W, seats: &[Option<Practice>]) -> u64
    requires { sum (map (weight_at (W.Weigh.weighs weighing.now)) (beside lists.now.lists.items seats.now)) < 2 ^ 64 }
    ensures { result ≡ sum (map (weight_at (W.Weigh.weighs weighing.now)) (beside lists.now.lists.items seats.now)) }
{
    lists
        .lists
        .iter()
        .zip(seats)
        .zip(0..400)
        .map(|((list, seat), t)| u64::from(weighing.weigh(Trainee(t), list, *seat)))
        .sum()
}
