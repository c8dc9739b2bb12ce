// A register: a roll that also takes entries.
ghost use Rattle.std.specs.Prelude.{◌≡◌};
ghost use Rattle.rules.specs.Meaning.{meant};
ghost use Rattle.rules.specs.Questions.{numbers};
ghost use Rattle.rules.specs.Refusals.{enter_outcome, places_outcome};

use crate::roll::Roll;
use crate::terms::Terms;
use crate::words::{Practice, Refusal, Trainee};

pub trait Register: Terms {
    // Replaces one trainee's list.
    fn enter(&mut self, t: Trainee, list: &[Practice]) -> Result<(), Refusal>
        ensures { enter_outcome (meant Self.Roll.entries Self.Terms.rules self.old) t.0 (numbers list.now) ≡ (result, meant Self.Roll.entries Self.Terms.rules self.new) };

    // Replaces one practice's number of places.
    fn places(&mut self, p: Practice, n: u16) -> Result<(), Refusal>
        ensures { places_outcome (meant Self.Roll.entries Self.Terms.rules self.old) p.0 n ≡ (result, meant Self.Roll.entries Self.Terms.rules self.new) };
}
