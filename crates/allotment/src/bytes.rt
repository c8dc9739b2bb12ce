// Seats as bytes: a practice's number, or FF for no seat.
ghost use Rattle.std.specs.Prelude.{◌≡◌, ℕ, ◌%◌, ◌<◌, ◌≤◌, length};
ghost use Rattle.voting.specs.Placements.{stored, seating};
ghost use Rattle.allotment.specs.Bytes.{seat_of_byte, byte_of_seat, written};
ghost use Rattle.allotment.specs.Counts.{Below};

use rules::words::Practice;

// The byte FF for no seat is the form of sheets and callers' buffers. Functions and no From: the types of both sides are declared elsewhere.

// The seat that a byte says.
pub fn seat_of(byte: u8) -> Option<Practice>
    ensures { stored result ≡ seat_of_byte byte }
{
    if byte == 255 {
        None
    } else {
        Some(Practice(u16::from(byte)))
    }
}

// The byte that says a seat: a number above 255 is cut to its low byte.
pub fn byte_of(seat: Option<Practice>) -> u8
    ensures { result ≡ byte_of_seat (stored seat) % 256 }
{
    match seat {
        Some(p) => (p.0 % 256) as u8,
        None => 255,
    }
}

// Writes the seats into the first bytes of the buffer.
pub(crate) fn write_seats(seats: &[Option<Practice>], buffer: &mut [u8])
    requires room { length seats.now ≤ length buffer.old }
    requires below { (t : ℕ) → t < length seats.now → Below 255 (seating seats.now t) }
    ensures { buffer.new ≡ written (length seats.now) (seating seats.now) buffer.old }
{
    // A zip over iter_mut was tried: the proof does not know what such a loop leaves in the buffer.
    for (t, seat) in seats.iter().enumerate() {
        buffer[t] = byte_of(*seat);
    }
}
