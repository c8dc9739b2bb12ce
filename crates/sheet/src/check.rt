// Whether bytes are a sheet, and if not, why and where.
ghost use Rattle.std.specs.Prelude.{◌≡◌, Ok};
ghost use Rattle.rules.specs.Meaning.{Entries};
ghost use Rattle.sheet.specs.Filing.{Filing};
ghost use Rattle.sheet.specs.Reading.{reading};
ghost use Rattle.sheet.specs.Statement.{SheetOf, ReadsTheSheets};
ghost use Rattle.sheet.specs.Told.{accepted};
ghost use Rattle.sheet.specs.Opened.{counts_read};

use crate::counts::Counts;
use crate::unread::Unread;
use rules::words::Refusal;

// Reads the bytes once, from the front.
pub(crate) fn read_counts(bytes: &[u8]) -> Result<Counts, Refusal>
    ensures { result ≡ counts_read (reading bytes.now) }
{
    let (practices, lists) = Unread::new(bytes).practices()?;
    let (trainees, filing) = lists.trainees(practices)?;
    let (filed, rest) = filing.filing(practices, trainees)?;
    rest.finish()?;
    Ok(Counts {
        practices,
        trainees,
        filed,
    })
}

// Accepts the sheets of lawful entries and fitting filings, and nothing else.
pub fn check(bytes: &[u8]) -> Result<(), Refusal>
    ensures reads { result ≡ accepted (reading bytes.now) }
    ensures sheets { ReadsTheSheets bytes.now }
    ensures only { result ≡ Ok tt → (e : Entries) × (f : Filing) × SheetOf e f bytes.now }
    ensures every { (e : Entries) (f : Filing) → SheetOf e f bytes.now → result ≡ Ok tt }
{
    read_counts(bytes)?;
    Ok(())
}
