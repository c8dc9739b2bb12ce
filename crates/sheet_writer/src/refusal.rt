// What writing is refused with, if with anything.
ghost use Rattle.std.specs.Prelude.{◌≡◌, ◌≤◌, length};
ghost use Rattle.rules.specs.Meaning.{practices};
ghost use Rattle.rules.specs.Refusals.{answer_of};
ghost use Rattle.sheet.specs.Format.{sheet};
ghost use Rattle.sheet_writer.specs.Writing.{filed_refusal, write_refusal};

use crate::lists::lists_length;
use rules::roll::Roll;
use rules::words::{Layer, Reason, Refusal};
use sheet::numbers::check_filed;

// How many bytes the sheet takes. Roll and filing stay two, and the filing's bound a clause of three: a struct of them would have to be made twice.
fn sheet_length<R: Roll>(roll: &R, filing: &[u8]) -> usize
    requires { length filing.now ≤ 400 }
    ensures { result ≡ length (sheet (R.entries roll.now) filing.now) }
{
    6 + 2 * roll.practices() as usize + lists_length(roll) + filing.len()
}

// Each filed byte is a practice or 255: the place is the lowest trainee for whom it is not.
fn check_filing(practices: u16, filing: &[u8]) -> Result<(), Refusal>
    ensures { result ≡ answer_of (filed_refusal practices 0 filing.now) }
{
    for (t, p) in filing.iter().enumerate() {
        check_filed(practices, *p).map_err(|reason| Layer::Sheet.refusal(reason, t))?;
    }
    Ok(())
}

pub(crate) fn check_write<R: Roll>(roll: &R, filing: &[u8], room: usize) -> Result<(), Refusal>
    ensures { result ≡ answer_of (write_refusal (R.entries roll.now) filing.now room) }
{
    let trainees = roll.trainees() as usize;
    if !filing.is_empty() && filing.len() != trainees {
        return Err(Layer::Sheet.refusal(Reason::WrongLength, trainees));
    }
    let size = sheet_length(roll, filing);
    if room < size {
        return Err(Layer::Sheet.refusal(Reason::WrongLength, size));
    }
    check_filing(roll.practices(), filing)
}
