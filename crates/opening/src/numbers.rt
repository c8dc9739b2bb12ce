// What a register over lent memory keeps itself: all but the lists.
ghost use Rattle.std.specs.Prelude.{◌≡◌, ◌≤◌, length, nat_lt, replicate, slice_index, slice_set};
ghost use Rattle.opening.specs.Opening.{opening_refusal, opened};

use crate::room::check_opening;
use arrayvec::ArrayVec;
use rules::words::Practice;

/// How many trainees, and the places of each practice.
#[derive(Drop)]
pub struct Numbers {
    pub trainees: u16,
    pub places: ArrayVec<u16, 100>,
}

impl Numbers {
    // Those of a register just opened; what the check refuses opens with nobody. The numbers asked for are no `Numbers` before they are checked.
    pub fn opened(practices: u16, trainees: u16, needed: usize, lent: usize) -> Numbers
        ensures trainees { result.trainees ≡ length (opened (opening_refusal practices trainees needed lent) practices trainees).entries.lists }
        ensures places { result.places.items ≡ (opened (opening_refusal practices trainees needed lent) practices trainees).entries.places }
    {
        if check_opening(practices, trainees, needed, lent).is_err() {
            return Numbers::all_one(0, 0);
        }
        Numbers::all_one(practices, trainees)
    }

    fn all_one(practices: u16, trainees: u16) -> Numbers
        requires { practices ≤ 100 }
        ensures trainees { result.trainees ≡ trainees }
        ensures places { result.places.items ≡ replicate practices 1 }
    {
        let mut places = ArrayVec::from([1; 100]);
        places.truncate(practices as usize);
        Numbers { trainees, places }
    }

    pub fn practices(&self) -> u16
        ensures { result ≡ length self.now.places.items }
    {
        self.places.len() as u16
    }

    // Whether there is such a practice.
    pub fn has(&self, p: Practice) -> bool
        ensures { result ≡ nat_lt p.0 (length self.now.places.items) }
    {
        (p.0 as usize) < self.places.len()
    }

    // 0 for a practice that there is not.
    pub fn places_of(&self, p: Practice) -> u16
        ensures { result ≡ slice_index self.now.places.items p.0 }
    {
        self.places.get(p.0 as usize).copied().unwrap_or(0)
    }

    // Changes nothing for a practice that there is not.
    pub fn set_places(&mut self, p: Practice, n: u16)
        ensures trainees { self.new.trainees ≡ self.old.trainees }
        ensures places { self.new.places.items ≡ slice_set self.old.places.items p.0 n }
    {
        if let Some(places) = self.places.get_mut(p.0 as usize) {
            *places = n;
        }
    }
}
