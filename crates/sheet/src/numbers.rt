// The checks of a sheet's numbers.
ghost use Rattle.std.specs.Prelude.{◌≡◌};
ghost use Rattle.rules.specs.Refusals.{answer_of};
ghost use Rattle.sheet.specs.Reading.{above, off_choice, off_count, off_filed};

use rules::words::Reason;

// A count or a length has a greatest number.
pub(crate) fn check_count(most: u16, n: u16) -> Result<(), Reason>
    ensures { result ≡ answer_of (above most n) }
{
    if n <= most {
        Ok(())
    } else {
        Err(Reason::CountOutOfBounds)
    }
}

// A choice is a practice, and none of those earlier on the list.
pub(crate) fn check_choice(practices: u16, earlier: &[u8], p: u8) -> Result<(), Reason>
    ensures { result ≡ answer_of (off_choice practices earlier.now p) }
{
    if u16::from(p) >= practices {
        Err(Reason::PracticeNotOffered)
    } else if earlier.contains(&p) {
        Err(Reason::Repeated)
    } else {
        Ok(())
    }
}

// A filed count is 0 or the trainees.
pub(crate) fn check_filed_count(trainees: u16, n: u16) -> Result<(), Reason>
    ensures { result ≡ answer_of (off_count trainees n) }
{
    if n == 0 || n == trainees {
        Ok(())
    } else {
        Err(Reason::CountOutOfBounds)
    }
}

// A filed byte is a practice or 255.
pub fn check_filed(practices: u16, p: u8) -> Result<(), Reason>
    ensures { result ≡ answer_of (off_filed practices p) }
{
    if p == 255 || u16::from(p) < practices {
        Ok(())
    } else {
        Err(Reason::PracticeNotOffered)
    }
}
