// What a line of a script says.
use crate::calls::{Kept, Planned};
use crate::faults::Fault;
use crate::pile::Opening;
use crate::words::{first_words, keep, number};
use rules::words::{Practice, Trainee};
use std::alloc::Global;

/// A line that is not blank: how the round is opened, or a call on it.
#[derive(Clone, Copy)]
pub enum Line {
    Open(Opening),
    Short(usize),
    Close(Practice),
    Call(Planned),
}

// The byte of an offered seat: a practice, or - for no seat.
fn seat_byte(word: &[u8]) -> Result<u8, Fault> {
    match word {
        b"-" => Ok(255),
        _ => match number(word)? {
            255 => Err(Fault::NoCall),
            p => Ok(p),
        },
    }
}

// What the line says; a blank one says nothing. Lists and offered placements go into `kept`.
pub fn read(heap: Global, line: &[u8], kept: &mut Kept) -> Result<Option<Line>, Fault> {
    let words = first_words(heap, line)?;
    let line = match words.as_slice() {
        [] => return Ok(None),
        [b"open", practices, trainees] => Line::Open(Opening {
            practices: number(practices)?,
            trainees: number(trainees)?,
            most: 12,
        }),
        [b"short", most] => Line::Short(number(most)?),
        [b"close", p] => Line::Close(Practice(number(p)?)),
        [b"enter", t, ..] => {
            let t = Trainee(number(t)?);
            let length = keep(
                line,
                2,
                |word| number(word).map(Practice),
                &mut kept.practices,
            )?;
            Line::Call(Planned::Enter(t, length))
        }
        [b"places", p, n] => Line::Call(Planned::Places(Practice(number(p)?), number(n)?)),
        // as many slots as any round can want
        [b"allot"] => Line::Call(Planned::Allot(400, 400)),
        [b"allot", waiting, moves] => {
            Line::Call(Planned::Allot(number(waiting)?, number(moves)?))
        }
        [b"seat", t] => Line::Call(Planned::Seat(Trainee(number(t)?))),
        [b"challenge", ..] => {
            let length = keep(line, 1, |word| seat_byte(word), &mut kept.offered)?;
            Line::Call(Planned::Challenge(length))
        }
        _ => return Err(Fault::NoCall),
    };
    Ok(Some(line))
}
