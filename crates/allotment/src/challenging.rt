// A heaviest placement by the ballots is a strongest rival of what is offered.
ghost use Rattle.std.specs.Prelude.{◌≡◌, ◌≤◌, length};
ghost use Rattle.rules.specs.Meaning.{trainees};
ghost use Rattle.voting.specs.Ballots.{ballot};
ghost use Rattle.voting.specs.Placements.{Feasible, seating};
ghost use Rattle.voting.specs.Votes.{Strongest};
ghost use Rattle.voting.specs.Weights.{Heaviest};
ghost use Rattle.allotment.specs.Bytes.{offered_by, written};
ghost use Rattle.allotment.specs.Challenges.{Challenged};
ghost use Rattle.allotment.specs.Copies.{entries};

use crate::by_ballots::ByBallots;
use crate::bytes::write_seats;
use crate::filling::hold;
use crate::lists::Lists;
use crate::reading::whole_weight;
use assignment::place::place;
use assignment::table::Table;
use rules::words::{Move, Practice, Trainee};

// Writes the rival, and says by how many it wins.
fn write_rival(
    lists: &Lists,
    offered: &[u8],
    seats: &[Option<Practice>; 400],
    rival: &mut [u8],
) -> u16
    requires fits { Feasible (entries lists.now) (offered_by offered.now) }
    requires heaviest { Heaviest (entries lists.now) (ballot (entries lists.now) (offered_by offered.now)) (seating seats.now) }
    requires room { trainees (entries lists.now) ≤ length rival.old }
    ensures strongest { Strongest (entries lists.now) (offered_by offered.now) result (seating seats.now) }
    ensures written { rival.new ≡ written (trainees (entries lists.now)) (seating seats.now) rival.old }
{
    let n = lists.lists.len();
    let whole = whole_weight(lists, &ByBallots { offered }, seats);
    write_seats(&seats[..n], rival);
    (whole - n as u64) as u16
}

// The strongest rival, found with slots of its own.
#[inline(never)]
pub(crate) fn challenge_in(lists: &Lists, offered: &[u8], rival: &mut [u8]) -> u16
    requires fits { Feasible (entries lists.now) (offered_by offered.now) }
    requires room { trainees (entries lists.now) ≤ length rival.old }
    ensures { Challenged (entries lists.now) offered.now rival.old result rival.new }
{
    let mut waiting = [Trainee::default(); 400];
    let mut moves = [Move::default(); 400];
    let mut table = Table::vacant();
    hold(lists, &ByBallots { offered }, &mut table);
    let placed = place(&table, &mut waiting, &mut moves).unwrap();
    write_rival(lists, offered, &placed.seats, rival)
}
