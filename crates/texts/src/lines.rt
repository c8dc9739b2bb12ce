// The lines that people read.
// Put piece by piece: a text's calls cannot fail, and a `write!` may (tried: its contract says nothing of an error, so the proof did not close).
ghost use Rattle.std.specs.Prelude.{◌≡◌, ◌≤◌, ◌++◌, length, codes, decimal};
ghost use Rattle.voting.specs.Placements.{stored};
ghost use Rattle.texts.specs.Text.{text, kept};
ghost use Rattle.texts.specs.Lines.{line, refusal_words, seat_word, seat_words};

use crate::text::Text;
use rules::words::{Practice, Refusal};

impl Text {
    // refused N LAYER PLACE
    pub fn put_refusal(&mut self, refusal: Refusal)
        ensures after { text self.new ≡ kept (text self.old ++ line (refusal_words refusal)) }
        ensures short { length (line (refusal_words refusal)) ≤ 64 }
    {
        self.put(b"refused ");
        self.put_number(usize::from(u8::from(refusal.reason)));
        self.push(b' ');
        self.put(refusal.layer.word().as_bytes());
        self.push(b' ');
        self.put_number(refusal.place);
        self.push(b'\n');
    }

    // The practice's number, or -.
    pub fn put_seat(&mut self, seat: Option<Practice>)
        ensures { text self.new ≡ kept (text self.old ++ seat_word (stored seat)) }
    {
        match seat {
            Some(p) => self.put_number(usize::from(p.0)),
            None => self.push(b'-'),
        }
    }

    // TRAINEE SEAT
    pub fn put_seat_line(&mut self, t: usize, seat: Option<Practice>)
        ensures { text self.new ≡ kept (text self.old ++ line (seat_words t (stored seat))) }
    {
        self.put_number(t);
        self.push(b' ');
        self.put_seat(seat);
        self.push(b'\n');
    }
}
