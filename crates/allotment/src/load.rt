// A roll is read once, into vectors, by pushes: a `collect` takes an allocator, and an `extend` answers a Result that would have to be shown to be Ok.
ghost use Rattle.std.specs.Prelude.{◌≡◌, map};
ghost use Rattle.rules.specs.Meaning.{list_of};
ghost use Rattle.allotment.specs.Vectors.{chosen};
ghost use Rattle.allotment.specs.Copies.{entries};

use crate::lists::Lists;
use arrayvec::ArrayVec;
use rules::roll::Roll;
use rules::words::{Practice, Trainee};

// How many places each practice has.
fn places_in<R: Roll>(roll: &R) -> ArrayVec<u16, 100>
    ensures { result.items ≡ (R.Roll.entries roll.now).places }
{
    let mut places = ArrayVec::new();
    for p in 0..roll.practices() {
        places.push(roll.places_of(Practice(p)));
    }
    places
}

// The list of one trainee.
fn list_in<R: Roll>(roll: &R, t: Trainee) -> ArrayVec<Practice, 12>
    ensures { chosen result ≡ list_of (R.Roll.entries roll.now) t.0 }
{
    let mut list = ArrayVec::new();
    for k in 0..roll.list_length(t) {
        list.push(roll.choice(t, k).unwrap());
    }
    list
}

// The lists of all trainees.
fn lists_in<R: Roll>(roll: &R) -> ArrayVec<ArrayVec<Practice, 12>, 400>
    ensures { map chosen result.items ≡ (R.Roll.entries roll.now).lists }
{
    let mut lists = ArrayVec::new();
    for t in 0..roll.trainees() {
        lists.push(list_in(roll, Trainee(t)));
    }
    lists
}

// The whole roll.
#[inline(never)]
pub(crate) fn read<R: Roll>(roll: &R) -> Lists
    ensures { entries result ≡ R.Roll.entries roll.now }
{
    Lists {
        places: places_in(roll),
        lists: lists_in(roll),
    }
}
