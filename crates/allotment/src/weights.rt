// What seats weigh: a weighing gives a number to each seat of a trainee, by the own list.
ghost use Rattle.std.specs.Prelude.{◌≡◌, ℕ, ◌^◌, ◌≤◌, List};
ghost use Rattle.rules.specs.Questions.{numbers};
ghost use Rattle.voting.specs.Placements.{Seat, stored};

use rules::words::{Practice, Trainee};

pub trait Weigh {
    // What a seat weighs for a trainee with this list.
    ghost weighs: { Self → ℕ → List ℕ → Seat → ℕ };

    // No seat weighs more than the engine takes.
    fn weigh(&self, t: Trainee, list: &[Practice], seat: Option<Practice>) -> u32
        ensures exact { result ≡ weighs self.now t.0 (numbers list.now) (stored seat) }
        ensures modest { result ≤ 2 ^ 30 };
}
