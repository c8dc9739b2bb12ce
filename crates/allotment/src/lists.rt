// A roll that was read: its places and its lists.
ghost use Rattle.rules.specs.Meaning.{Lawful};
ghost use Rattle.allotment.specs.Vectors.{copied};

use arrayvec::ArrayVec;
use rules::words::Practice;

/// The places of each practice, and the list of each trainee, the most wanted practice first: those of a lawful roll.
#[derive(Drop)]
pub struct Lists {
    pub places: ArrayVec<u16, 100>,
    pub lists: ArrayVec<ArrayVec<Practice, 12>, 400>,
    ghost lawful: { ∥ Lawful (copied places lists) ∥₁ },
}
