// The sections of a sheet.
ghost use Rattle.std.specs.Prelude.{◌≡◌, [], IfOk};
ghost use Rattle.rules.specs.Refusals.{off_places};
ghost use Rattle.sheet.specs.Reading.{one, two, choices, list, off_filed, practices_section, trainees_section, filing_section};
ghost use Rattle.sheet.specs.Told.{told, left, rest_told, numbered};

use crate::numbers::{check_choice, check_count, check_filed, check_filed_count};
use crate::unread::Unread;
use rules::entry::check_number;
use rules::words::Refusal;

impl<'a> Unread<'a> {
    // The places of a practice.
    fn places(self) -> Result<Unread<'a>, Refusal>
        ensures size { IfOk result (λ u. u.size ≡ self.entry.size) }
        ensures reads { rest_told result ≡ left (two self.entry.size off_places self.entry.rest.now) }
    {
        let (_, left) = self.two(check_number)?;
        Ok(left)
    }

    // A trainee's filed byte.
    fn filed(self, practices: u16) -> Result<Unread<'a>, Refusal>
        ensures size { IfOk result (λ u. u.size ≡ self.entry.size) }
        ensures reads { rest_told result ≡ left (one self.entry.size (off_filed practices) self.entry.rest.now) }
    {
        let (_, left) = self.one(|p| check_filed(practices, p))?;
        Ok(left)
    }

    // So many choices of one list.
    fn choices(self, practices: u16, n: u8) -> Result<Unread<'a>, Refusal>
        ensures size { IfOk result (λ u. u.size ≡ self.entry.size) }
        ensures reads { rest_told result ≡ left (choices self.entry.size practices [] n self.entry.rest.now) }
    {
        let mut left = self;
        for _ in 0..n {
            let earlier = &self.rest[..self.rest.len() - left.rest.len()];
            let (_, behind) = left.one(|p| check_choice(practices, earlier, p))?;
            left = behind;
        }
        Ok(left)
    }

    // A trainee's list, its length in front.
    fn list(self, practices: u16) -> Result<Unread<'a>, Refusal>
        ensures size { IfOk result (λ u. u.size ≡ self.entry.size) }
        ensures reads { rest_told result ≡ left (list self.entry.size practices self.entry.rest.now) }
    {
        let (n, left) = self.one(|n| check_count(12, u16::from(n)))?;
        left.choices(practices, n)
    }

    // The number of practices, behind which their places stand.
    pub(crate) fn practices(self) -> Result<(u16, Unread<'a>), Refusal>
        ensures size { IfOk result (λ p. p.1.size ≡ self.entry.size) }
        ensures reads { told result ≡ numbered (practices_section self.entry.size self.entry.rest.now) }
    {
        self.section(|n| check_count(100, n), |left| left.places())
    }

    // The number of trainees, behind which their lists stand.
    pub(crate) fn trainees(self, practices: u16) -> Result<(u16, Unread<'a>), Refusal>
        ensures size { IfOk result (λ p. p.1.size ≡ self.entry.size) }
        ensures reads { told result ≡ numbered (trainees_section self.entry.size practices self.entry.rest.now) }
    {
        self.section(|n| check_count(400, n), |left| left.list(practices))
    }

    // How many bytes are filed, behind which they stand.
    pub(crate) fn filing(self, practices: u16, trainees: u16) -> Result<(u16, Unread<'a>), Refusal>
        ensures size { IfOk result (λ p. p.1.size ≡ self.entry.size) }
        ensures reads { told result ≡ numbered (filing_section self.entry.size practices trainees self.entry.rest.now) }
    {
        self.section(
            |n| check_filed_count(trainees, n),
            |left| left.filed(practices),
        )
    }
}
