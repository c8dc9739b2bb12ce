// Challenge's weighing: the ballots of the trainees between a seat and the one that was offered.
ghost use Rattle.std.specs.Prelude.{◌≡◌};
ghost use Rattle.rules.specs.Questions.{numbers, position};
ghost use Rattle.voting.specs.Placements.{stored};
ghost use Rattle.voting.specs.Votes.{prefers};
ghost use Rattle.allotment.specs.Bytes.{offered_by};
ghost use Rattle.allotment.specs.Weights.{by_ballot};

use crate::bytes::seat_of;
use crate::weights::Weigh;
use rules::found::place_of;
use rules::words::{Practice, Trainee};

/// Weighs by what is offered, one byte a trainee.
#[derive(Drop)]
pub struct ByBallots<'a> {
    pub offered: &'a [u8],
}

// Where the practice first stands on the list, or the list's length.
fn position(list: &[Practice], p: Practice) -> usize
    ensures { result ≡ position (numbers list.now) p.0 }
{
    place_of(list, &p).unwrap_or(list.len())
}

// Whether a trainee with this list prefers one seat to another.
fn prefers(list: &[Practice], a: Option<Practice>, b: Option<Practice>) -> bool
    ensures { result ≡ prefers (numbers list.now) (stored a) (stored b) }
{
    match (a, b) {
        (None, _) => false,
        (Some(_), None) => true,
        (Some(p), Some(q)) => position(list, p) < position(list, q),
    }
}

// The seat that is offered to a trainee.
fn offered_to(offered: &[u8], t: Trainee) -> Option<Practice>
    ensures { stored result ≡ offered_by offered.now t.0 }
{
    offered
        .get(usize::from(t.0))
        .and_then(|byte| seat_of(*byte))
}

impl Weigh for ByBallots<'_> {
    ghost weighs = { λ s t list seat. by_ballot list (offered_by s.offered.now t) seat };

    fn weigh(&self, t: Trainee, list: &[Practice], seat: Option<Practice>) -> u32 {
        let own = offered_to(self.offered, t);
        if prefers(list, seat, own) {
            2
        } else if prefers(list, own, seat) {
            0
        } else {
            1
        }
    }
}
