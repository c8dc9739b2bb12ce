// Reading numbers, and as many of a kind as a number says.
ghost use Rattle.std.specs.Prelude.{◌≡◌, ◌≤◌, length, ℕ, List, IfOk, Option, Result};
ghost use Rattle.rules.specs.declared.words.Reason.{Reason};
ghost use Rattle.rules.specs.declared.words.Refusal.{Refusal};
ghost use Rattle.sheet.specs.Reading.{one, two};
ghost use Rattle.sheet.specs.Told.{Checks, Stays, Goes, told, rest_told, past, section_read};

use crate::unread::Unread;
use rules::words::{Layer, Reason, Refusal};

impl<'a> Unread<'a> {
    // What is left behind a number that a check accepts.
    fn past(self, rest: &'a [u8], checked: Result<(), Reason>) -> Result<Unread<'a>, Refusal>
        requires { length rest.now ≤ length self.rest.now }
        ensures size { IfOk result (λ u. u.size ≡ self.entry.size) }
        ensures reads { rest_told result ≡ past self.entry.size self.entry.rest.now checked rest.entry.now }
    {
        let at = self.at();
        checked.map_err(|reason| Layer::Sheet.refusal(reason, at))?;
        Ok(Unread {
            size: self.size,
            rest,
        })
    }

    // A number of one byte, once it is checked. This and the next stay two: a pattern takes the bytes of each apart, and a number of N bytes would be made of
    // them by a loop.
    pub(crate) fn one<C: Fn(u8) -> Result<(), Reason>>(
        self,
        check: C,
    ) -> Result<(u8, Unread<'a>), Refusal>
        requires { C.IsAlwaysCallable check }
        ensures size { IfOk result (λ p. p.1.size ≡ self.entry.size) }
        ensures reads { (wrong : ℕ → Option Reason) → Checks (C.post check) 256 wrong → told result ≡ one self.entry.size wrong self.entry.rest.now }
    {
        match self.rest {
            [n, rest @ ..] => { Ok((*n, self.past(rest, check(*n))?)) }
            _ => Err(Layer::Sheet.refusal(Reason::SheetEnds, self.size)),
        }
    }

    // A number of two bytes, the high one first, once it is checked.
    pub(crate) fn two<C: Fn(u16) -> Result<(), Reason>>(
        self,
        check: C,
    ) -> Result<(u16, Unread<'a>), Refusal>
        requires { C.IsAlwaysCallable check }
        ensures size { IfOk result (λ p. p.1.size ≡ self.entry.size) }
        ensures reads { (wrong : ℕ → Option Reason) → Checks (C.post check) 65536 wrong → told result ≡ two self.entry.size wrong self.entry.rest.now }
    {
        match self.rest {
            [hi, lo, rest @ ..] => {
                let n = u16::from_be_bytes([*hi, *lo]);
                Ok((n, self.past(rest, check(n))?))
            }
            _ => Err(Layer::Sheet.refusal(Reason::SheetEnds, self.size)),
        }
    }

    // A section: how many, and then each.
    pub(crate) fn section<
        C: Fn(u16) -> Result<(), Reason>,
        E: Fn(Unread<'a>) -> Result<Unread<'a>, Refusal>,
    >(self, check: C, each: E) -> Result<(u16, Unread<'a>), Refusal>
        requires check { C.IsAlwaysCallable check }
        requires each { E.IsAlwaysCallable each }
        requires stays { Stays (E.post each) }
        ensures size { IfOk result (λ p. p.1.size ≡ self.entry.size) }
        ensures reads { (wrong : ℕ → Option Reason) (next : List ℕ → Result (List ℕ) Refusal) → Checks (C.post check) 65536 wrong → Goes (E.post each) self.entry.size next → told result ≡ section_read self.entry.size wrong next self.entry.rest.now }
    {
        let (n, mut left) = self.two(check)?;
        for _ in 0..n {
            left = each(left)?;
        }
        Ok((n, left))
    }
}
