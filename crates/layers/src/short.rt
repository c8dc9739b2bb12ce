// A layer that shows each list cut to so many choices, and takes no longer one.
ghost use Rattle.std.specs.Prelude.{◌≡◌, min};
ghost use Rattle.rules.specs.Meaning.{meant};
ghost use Rattle.layers.specs.Shown.{shortened, shortened_rules, shortened_meaning};
ghost use Rattle.layers.specs.Kept.{lawful_shortened, bounded_shortened};

use rules::entry::check_entry;
use rules::register::Register;
use rules::roll::Roll;
use rules::terms::Terms;
use rules::words::{Practice, Refusal, Trainee};

#[derive(Drop)]
pub struct Short<R> {
    below: R,
    most: u8,
}

impl<R: Register> Short<R> {
    // A number above 12 counts as 12.
    pub fn new(below: R, most: u8) -> Short<R>
        ensures made { (result.below ≡ below) × (result.most ≡ min most 12) }
        ensures shows { shortened_meaning result.most (meant R.Roll.entries R.Terms.rules result.below) ≡ shortened_meaning (min most 12) (meant R.Roll.entries R.Terms.rules below) }
    {
        Short {
            below,
            most: most.min(12),
        }
    }
}

impl<R: Roll> Roll for Short<R> {
    ghost entries = { λ s. shortened s.most (R.Roll.entries s.below) };

    ghost lawful = { λ s. lawful_shortened s.most (R.Roll.entries s.below) (R.Roll.lawful s.below) };

    // These three are handed down, and so are `is_open`, `places` and what `enter` takes, as in Closed.
    fn trainees(&self) -> u16 {
        self.below.trainees()
    }

    fn practices(&self) -> u16 {
        self.below.practices()
    }

    fn places_of(&self, p: Practice) -> u16 {
        self.below.places_of(p)
    }

    fn list_length(&self, t: Trainee) -> u8 {
        self.below.list_length(t).min(self.most)
    }

    fn choice(&self, t: Trainee, k: u8) -> Option<Practice> {
        if k < self.most {
            self.below.choice(t, k)
        } else {
            None
        }
    }

    fn position(&self, t: Trainee, p: Practice) -> Option<u8> {
        self.below.position(t, p).filter(|k| *k < self.most)
    }
}

impl<R: Terms> Terms for Short<R> {
    ghost rules = { λ s. shortened_rules s.most (R.Terms.rules s.below) };

    ghost bounded = { λ s. bounded_shortened s.most (R.Terms.rules s.below) (R.Terms.bounded s.below) };

    fn longest(&self) -> u8 {
        self.below.longest().min(self.most)
    }

    fn is_open(&self, p: Practice) -> bool {
        self.below.is_open(p)
    }
}

impl<R: Register> Register for Short<R> {
    // What this layer takes, the register below takes.
    fn enter(&mut self, t: Trainee, list: &[Practice]) -> Result<(), Refusal> {
        check_entry(self, t, list)?;
        self.below.enter(t, list)
    }

    fn places(&mut self, p: Practice, n: u16) -> Result<(), Refusal> {
        self.below.places(p, n)
    }
}
