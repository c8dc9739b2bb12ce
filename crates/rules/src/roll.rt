// A roll: how many trainees and practices, the places, and the lists.
ghost use Rattle.std.specs.Prelude.{◌≡◌, length};
ghost use Rattle.rules.specs.Meaning.{Entries, Lawful, trainees, practices, places_of, list_of};
ghost use Rattle.rules.specs.Questions.{choice_in, position_in};

use crate::words::{Practice, Trainee};

// Each question answers from the meaning and changes nothing; out of range the numbers are 0, and there is no choice and no position.
pub trait Roll {
    ghost entries: { Self → Entries };

    // The law, as a member that holds its proof.
    ghost lawful: { (s : Self) → Lawful (entries s) };

    fn trainees(&self) -> u16
        ensures { result ≡ trainees (entries self.now) };

    fn practices(&self) -> u16
        ensures { result ≡ practices (entries self.now) };

    fn places_of(&self, p: Practice) -> u16
        ensures { result ≡ places_of (entries self.now) p.0 };

    fn list_length(&self, t: Trainee) -> u8
        ensures { result ≡ length (list_of (entries self.now) t.0) };

    // The choice at a position, counted from 0.
    fn choice(&self, t: Trainee, k: u8) -> Option<Practice>
        ensures { result ≡ choice_in (list_of (entries self.now) t.0) k };

    fn position(&self, t: Trainee, p: Practice) -> Option<u8>
        ensures { result ≡ position_in (list_of (entries self.now) t.0) p.0 };
}
