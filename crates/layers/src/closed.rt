// A layer that closes practices: no list shows them, and none is taken that names them.
ghost use Rattle.std.specs.Prelude.{◌≡◌, false, length, take, replicate, filter};
ghost use Rattle.std.proofs.lemmas.Map.Entries.{option_filter};
ghost use Rattle.rules.specs.declared.words.Practice.{Practice};
ghost use Rattle.rules.specs.Meaning.{meant, list_of};
ghost use Rattle.rules.specs.Questions.{choice_in};
ghost use Rattle.layers.specs.Closing.{marks_outcome, close_outcome};
ghost use Rattle.layers.specs.Shown.{is_closed, unclosed, without, without_rules, without_meaning};
ghost use Rattle.layers.specs.Kept.{lawful_without};

use rules::entry::check_entry;
use rules::register::Register;
use rules::roll::Roll;
use rules::terms::Terms;
use rules::words::{Layer, Practice, Reason, Refusal, Trainee};

#[derive(Drop)]
pub struct Closed<R> {
    below: R,
    closed: [bool; 100], // a set of practices, with no heap: a mark for each that a roll may have
}

impl<R: Register> Closed<R> {
    // Nothing is closed at first.
    pub fn new(below: R) -> Closed<R>
        ensures made { (result.below ≡ below) × (result.closed ≡ replicate 100 false) }
        ensures shows { without_meaning result.closed (meant R.Roll.entries R.Terms.rules result.below) ≡ meant R.Roll.entries R.Terms.rules below }
    {
        Closed {
            below,
            closed: [false; 100],
        }
    }
}

impl<R: Terms> Closed<R> {
    // A practice that is closed already may be closed again.
    pub fn close(&mut self, p: Practice) -> Result<(), Refusal>
        ensures shows { close_outcome (without_meaning self.old.closed (meant R.Roll.entries R.Terms.rules self.old.below)) p.0 ≡ (result, without_meaning self.new.closed (meant R.Roll.entries R.Terms.rules self.new.below)) }
        ensures marks { marks_outcome (R.Roll.entries self.old.below) self.old.closed p.0 ≡ (result, self.new.closed) }
        ensures keeps { self.new.below ≡ self.old.below }
    {
        if p.0 >= self.below.practices() {
            return Err(Layer::Register.refusal(Reason::NoSuchPractice, p.0 as usize));
        }
        self.closed[p.0 as usize] = true;
        Ok(())
    }
}

impl<R: Roll> Closed<R> {
    fn is_closed(&self, p: Practice) -> bool
        ensures { result ≡ is_closed self.now.closed p.0 }
    {
        self.closed.get(p.0 as usize).copied().unwrap_or(false)
    }

    // The choice at k below, if it is shown.
    fn shown_at(&self, t: Trainee, k: u8) -> Option<Practice>
        ensures { result ≡ option_filter (λ (p : Practice). unclosed self.now.closed p.0) (choice_in (list_of (R.Roll.entries self.now.below) t.0) k) }
    {
        self.below.choice(t, k).filter(|p| !self.is_closed(*p))
    }

    // How many of the first n choices below are shown.
    fn shown_among(&self, t: Trainee, n: u8) -> u8
        ensures { result ≡ length (filter (unclosed self.now.closed) (take n (list_of (R.Roll.entries self.now.below) t.0))) }
    {
        (0..n).filter_map(|k| self.shown_at(t, k)).count() as u8
    }
}

impl<R: Roll> Roll for Closed<R> {
    ghost entries = { λ s. without s.closed (R.Roll.entries s.below) };

    ghost lawful = { λ s. lawful_without s.closed (R.Roll.entries s.below) (R.Roll.lawful s.below) };

    // These three are handed down, and so are `longest`, `places` and what `enter` takes below. A trait of layers with them as default bodies would be no
    // shorter for two layers.
    fn trainees(&self) -> u16 {
        self.below.trainees()
    }

    fn practices(&self) -> u16 {
        self.below.practices()
    }

    fn places_of(&self, p: Practice) -> u16 {
        self.below.places_of(p)
    }

    fn list_length(&self, t: Trainee) -> u8 {
        self.shown_among(t, self.below.list_length(t))
    }

    fn choice(&self, t: Trainee, k: u8) -> Option<Practice> {
        (0..self.below.list_length(t))
            .filter_map(|j| self.shown_at(t, j))
            .nth(k as usize)
    }

    fn position(&self, t: Trainee, p: Practice) -> Option<u8> {
        if self.is_closed(p) {
            return None;
        }
        self.below.position(t, p).map(|k| self.shown_among(t, k))
    }
}

impl<R: Terms> Terms for Closed<R> {
    ghost rules = { λ s. without_rules s.closed (R.Terms.rules s.below) };

    ghost bounded = { λ s. R.Terms.bounded s.below };

    fn longest(&self) -> u8 {
        self.below.longest()
    }

    fn is_open(&self, p: Practice) -> bool {
        self.below.is_open(p) && !self.is_closed(p)
    }
}

impl<R: Register> Register for Closed<R> {
    // What this layer takes, the register below takes.
    fn enter(&mut self, t: Trainee, list: &[Practice]) -> Result<(), Refusal> {
        check_entry(self, t, list)?;
        self.below.enter(t, list)
    }

    fn places(&mut self, p: Practice, n: u16) -> Result<(), Refusal> {
        self.below.places(p, n)
    }
}
