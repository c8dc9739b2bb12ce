// Seats noted as bytes.
ghost use Rattle.std.specs.Prelude.{◌≡◌, ℕ, ◌<◌, ◌≤◌, length, Some};
ghost use Rattle.voting.specs.Placements.{stored};
ghost use Rattle.allotment.specs.Bytes.{bytes_of, byte_of_seat};
ghost use Rattle.round.specs.Steps.{seats_told};
ghost use Rattle.round.specs.Seen.{seen};
ghost use Rattle.round.specs.Making.{Narrow};

use crate::rounds::Round;
use allotment::bytes::byte_of;
use rules::register::Register;
use rules::roll::Roll;
use rules::terms::Terms;
use rules::words::Trainee;

// Writes what seat answers, a byte for each trainee.
pub(crate) fn note<R: Register>(round: &Round<R>, room: &mut [u8])
    requires short { length room.old ≤ 400 }
    requires narrow { Narrow (seats_told (seen R.Roll.entries R.Terms.rules round.now)) }
    ensures { room.new ≡ bytes_of (length room.old) (seats_told (seen R.Roll.entries R.Terms.rules round.now)) }
{
    for (t, byte) in room.iter_mut().enumerate() {
        *byte = byte_of(round.seat(Trainee(t as u16)).unwrap_or(None));
    }
}
