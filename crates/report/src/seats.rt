// A line for each trainee, from seats as bytes.
ghost use Rattle.std.specs.Prelude.{◌≡◌, ◌≤◌, ◌∷◌, ◌++◌, length, codes, decimal};
ghost use Rattle.allotment.specs.Bytes.{offered_by};
ghost use Rattle.texts.specs.Text.{text as text_of, kept};
ghost use Rattle.texts.specs.Lines.{line, seat_lines};

use allotment::bytes::seat_of;
use texts::text::Text;

// Ends a line, and puts one for each trainee.
fn put_seats(text: &mut Text, seats: &[u8])
    ensures { text_of text.new ≡ kept (text_of text.old ++ 10 ∷ seat_lines (length seats.now) (offered_by seats.now)) }
{
    text.push(b'\n');
    for (t, byte) in seats.iter().enumerate() {
        text.put_seat_line(t, seat_of(*byte));
    }
}

// placed K of N, and a line for each trainee
pub(crate) fn put_placement(text: &mut Text, seated: u16, seats: &[u8])
    ensures { text_of text.new ≡ kept (text_of text.old ++ (line (codes "placed " ++ decimal seated ++ codes " of " ++ decimal (length seats.now)) ++ seat_lines (length seats.now) (offered_by seats.now))) }
{
    text.put(b"placed ");
    text.put_number(usize::from(seated));
    text.put(b" of ");
    text.put_number(seats.len());
    put_seats(text, seats);
}

// majority K, and a line for each trainee
pub(crate) fn put_rival(text: &mut Text, majority: u16, seats: &[u8])
    ensures short { length (decimal majority) ≤ 20 }
    ensures after { text_of text.new ≡ kept (text_of text.old ++ (line (codes "majority " ++ decimal majority) ++ seat_lines (length seats.now) (offered_by seats.now))) }
{
    text.put(b"majority ");
    text.put_number(usize::from(majority));
    put_seats(text, seats);
}
