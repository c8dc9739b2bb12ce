// Opening bytes as a roll with a filing.
ghost use Rattle.std.specs.Prelude.{◌≡◌, ◌==◌, position as first_passing};
ghost use Rattle.rules.specs.Meaning.{Entries, list_of};
ghost use Rattle.rules.proofs.Lawfully.{lawful_from};
ghost use Rattle.sheet.specs.Filing.{Filing};
ghost use Rattle.sheet.specs.Statement.{SheetOf};
ghost use Rattle.sheet.specs.Opened.{opened, counts_of, filed_in};
ghost use Rattle.sheet.specs.Opening.{entries_in, filing_in};

use crate::check::read_counts;
use crate::counts::Counts;
use crate::open_sheet::OpenSheet;
use rules::roll::Roll;
use rules::words::{Practice, Trainee};

fn opened_counts(bytes: &[u8]) -> Counts
    ensures { result ≡ counts_of (opened bytes.now) }
{
    read_counts(bytes).unwrap_or_default()
}

// Bytes that are no sheet open as nobody, with nothing filed.
pub fn open(bytes: &[u8]) -> OpenSheet<'_>
    ensures entries { entries_in result ≡ (opened bytes.now).0 }
    ensures filing { filing_in result ≡ (opened bytes.now).1 }
    ensures sheets { (e : Entries) (f : Filing) → SheetOf e f bytes.now → (entries_in result ≡ e) × (filing_in result ≡ f) }
{
    let counts = opened_counts(bytes);
    OpenSheet { bytes, counts }
}

// Where a practice first stands on a list, if it does. By `place_of` p would first be narrowed to a byte, with an answer of its own where it is greater: no plainer.
fn position(list: &[u8], p: u16) -> Option<usize>
    ensures { result ≡ first_passing (λ q. q == p) list.now }
{
    list.iter().position(|q| u16::from(*q) == p)
}

impl OpenSheet<'_> {
    // The filed placement, or no bytes where nothing is filed.
    pub fn filing(&self) -> &[u8]
        ensures { result.now ≡ filing_in self.now }
    {
        &self.bytes[self.bytes.len() - self.counts.filed as usize..]
    }

    // The choices of a trainee where they stand: each list has its length in front of it.
    fn list(&self, t: Trainee) -> &[u8]
        ensures { result.now ≡ list_of (entries_in self.now) t.0 }
    {
        if t.0 >= self.trainees() {
            return &[];
        }
        let mut lists = &self.bytes[4 + 2 * self.practices() as usize..];
        for _ in 0..t.0 {
            lists = &lists[1 + lists[0] as usize..];
        }
        &lists[1..1 + lists[0] as usize]
    }

    // A trainee's filed byte.
    pub fn filed(&self, t: Trainee) -> Option<u8>
        ensures { result ≡ filed_in (filing_in self.now) t.0 }
    {
        self.filing().get(t.0 as usize).copied()
    }
}

impl Roll for OpenSheet<'_> {
    ghost entries = { entries_in };

    ghost lawful = { λ s. lawful_from s.lawful };

    fn trainees(&self) -> u16 {
        self.counts.trainees
    }

    fn practices(&self) -> u16 {
        self.counts.practices
    }

    fn places_of(&self, p: Practice) -> u16 {
        if p.0 < self.practices() {
            let at = 2 + 2 * p.0 as usize;
            u16::from_be_bytes([self.bytes[at], self.bytes[at + 1]])
        } else {
            0
        }
    }

    fn list_length(&self, t: Trainee) -> u8 {
        self.list(t).len() as u8
    }

    fn choice(&self, t: Trainee, k: u8) -> Option<Practice> {
        let p = self.list(t).get(k as usize)?;
        Some(Practice(u16::from(*p)))
    }

    fn position(&self, t: Trainee, p: Practice) -> Option<u8> {
        let k = position(self.list(t), p.0)?;
        Some(k as u8)
    }
}
