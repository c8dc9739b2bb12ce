// The seats of a round, and whether they are a placement that stands.
ghost use Rattle.std.specs.Prelude.{◌≡◌, ℕ, ◌<◌, length, replicate, is_some, Some, None, count_by, slice_index_or};
ghost use Rattle.std.specs.Option.{option_map};

use rules::words::{Practice, Trainee};

// An array of 400 with no length beside it: a round that is opened promises a table with no seat anywhere among 400.
#[derive(Drop)]
pub struct Table {
    // of the latest placement given, also after it has lapsed
    pub(crate) seats: [Option<Practice>; 400],
    // how many it seats, while it stands
    pub(crate) seated: Option<u16>,
    ghost counted: { (n : ℕ) → seated ≡ Some n → n ≡ count_by is_some seats },
    ghost long: { length seats ≡ 400 },
}

impl Table {
    // No seat anywhere, and nothing stands.
    pub(crate) fn none() -> Table
        ensures seats { result.seats ≡ replicate 400 None }
        ensures lapsed { result.seated ≡ None }
    {
        Table {
            seats: [None; 400],
            seated: None,
        }
    }

    // A placement, counted, that stands.
    pub(crate) fn of(seats: [Option<Practice>; 400], seated: u16) -> Table
        requires { seated ≡ count_by is_some seats }
        ensures seats { result.seats ≡ seats }
        ensures stands { result.seated ≡ Some seated }
    {
        Table {
            seats,
            seated: Some(seated),
        }
    }

    // The placement stands no more.
    pub(crate) fn lapse(&mut self)
        ensures seats { self.new.seats ≡ self.old.seats }
        ensures lapsed { self.new.seated ≡ None }
    {
        self.seated = None;
    }

    // The trainee's seat in the placement that stands.
    pub(crate) fn seat(&self, t: Trainee) -> Option<Option<Practice>>
        requires { t.0 < 400 }
        ensures { result ≡ option_map (λ (n : ℕ). slice_index_or self.now.seats t.0 None) self.now.seated }
    {
        self.seated.map(|_| self.seats[t.0 as usize])
    }
}
