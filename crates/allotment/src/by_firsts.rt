// Allot's weighing: the seats that an unbeaten placement may give outweigh all others.
ghost use Rattle.std.specs.Prelude.{◌≡◌, ◌+◌, ◌<◌, ◌≤◌, not, ◌&&◌, map, length, ◌==◌, nat_lt, find, slice_set};
ghost use Rattle.rules.specs.Questions.{numbers};
ghost use Rattle.voting.specs.Placements.{stored};
ghost use Rattle.voting.specs.Local.{first_choice};
ghost use Rattle.allotment.specs.Copies.{entries};
ghost use Rattle.allotment.specs.Weights.{by_firsts, fallback_weight, demand_at, firsts_in, places_in, Holds};

use crate::lists::Lists;
use crate::weights::Weigh;
use arrayvec::ArrayVec;
use rules::words::{Practice, Trainee};

// More than 400 first choices add, at 1 each.
const PLACED: u32 = 401;

// 401 · 402: more than 400 practices and first choices add, at 402 each.
const CHOSEN: u32 = 161202;

/// How many have a practice as their first choice, and its places.
#[derive(Clone, Copy, Default)]
pub struct Demand {
    pub firsts: u16,
    pub places: u16,
}

impl Demand {
    // Whether the practice has fewer first choices than places.
    fn is_spare(self) -> bool
        ensures { result ≡ nat_lt self.firsts self.places }
    {
        self.firsts < self.places
    }

    // Whether it has more.
    fn is_short(self) -> bool
        ensures { result ≡ nat_lt self.places self.firsts }
    {
        self.places < self.firsts
    }
}

/// Weighs by first counts and places.
#[derive(Drop)]
pub struct ByFirsts {
    pub demands: ArrayVec<Demand, 100>,
}

// What is demanded where nobody has a first choice yet; by pushes, as a roll is read.
fn undemanded(places: &[u16]) -> ArrayVec<Demand, 100>
    requires { length places.now ≤ 100 }
    ensures { result.items ≡ map (λ n. record { firsts = 0; places = n }) places.now }
{
    let mut demands = ArrayVec::new();
    for places in places {
        demands.push(Demand {
            firsts: 0,
            places: *places,
        });
    }
    demands
}

// The first choice of a trainee with this list.
fn first_choice(list: &[Practice]) -> Option<Practice>
    ensures { stored result ≡ first_choice (numbers list.now) }
{
    list.first().copied()
}

// One more has the practice as first choice.
fn count_first(demands: &mut ArrayVec<Demand, 100>, p: Practice)
    requires known { p.0 < length demands.old.items }
    requires few { firsts_in demands.old.items p.0 < 65535 }
    ensures { demands.new.items ≡ slice_set demands.old.items p.0 (record { firsts = firsts_in demands.old.items p.0 + 1; places = places_in demands.old.items p.0 }) }
{
    demands[p.0 as usize].firsts += 1;
}

// What a seat weighs beside the fallback.
fn fallback_weight(fallback: Option<Practice>, seat: Option<Practice>) -> u32
    ensures { result ≡ fallback_weight (stored fallback) (stored seat) }
{
    if seat != fallback {
        0
    } else if seat.is_some() {
        CHOSEN + PLACED
    } else {
        CHOSEN
    }
}

impl ByFirsts {
    // What is demanded of a practice, nothing past the last.
    fn demand(&self, p: Practice) -> Demand
        ensures { result ≡ demand_at self.now.demands.items p.0 }
    {
        self.demands
            .get(usize::from(p.0))
            .copied()
            .unwrap_or_default()
    }

    // The earliest practice on the list, other than the first choice, that is spare.
    fn fallback(&self, first: Practice, list: &[Practice]) -> Option<Practice>
        ensures { result ≡ find (λ p. not (first.0 == p.0) && nat_lt (firsts_in self.now.demands.items p.0) (places_in self.now.demands.items p.0)) list.now }
    {
        list.iter()
            .copied()
            .find(|p| first != *p && self.demand(*p).is_spare())
    }

    // By the first counts and the places of a roll that was read.
    pub(crate) fn of(lists: &Lists) -> ByFirsts
        ensures { Holds (entries lists.now) result }
    {
        let mut demands = undemanded(&lists.places);
        for list in lists.lists.iter() {
            if let Some(first) = first_choice(list) {
                count_first(&mut demands, first);
            }
        }
        ByFirsts { demands }
    }
}

impl Weigh for ByFirsts {
    ghost weighs = { λ s t list seat. by_firsts (firsts_in s.demands.items) (places_in s.demands.items) list seat };

    fn weigh(&self, _t: Trainee, list: &[Practice], seat: Option<Practice>) -> u32 {
        let [first, ..] = list else {
            return 0;
        };
        if seat == Some(*first) {
            CHOSEN + PLACED + 1
        } else if self.demand(*first).is_short() {
            fallback_weight(self.fallback(*first, list), seat)
        } else {
            0
        }
    }
}
