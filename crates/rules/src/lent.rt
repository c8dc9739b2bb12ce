// A roll or a register that is lent is one too.
use crate::register::Register;
use crate::roll::Roll;
use crate::terms::Terms;
use crate::words::{Practice, Refusal, Trainee};

impl<R: Roll> Roll for &mut R {
    ghost entries = { λ s. R.Roll.entries s.now };

    ghost lawful = { λ s. R.Roll.lawful s.now };

    fn trainees(&self) -> u16 {
        (**self).trainees()
    }

    fn practices(&self) -> u16 {
        (**self).practices()
    }

    fn places_of(&self, p: Practice) -> u16 {
        (**self).places_of(p)
    }

    fn list_length(&self, t: Trainee) -> u8 {
        (**self).list_length(t)
    }

    fn choice(&self, t: Trainee, k: u8) -> Option<Practice> {
        (**self).choice(t, k)
    }

    fn position(&self, t: Trainee, p: Practice) -> Option<u8> {
        (**self).position(t, p)
    }
}

impl<R: Terms> Terms for &mut R {
    ghost rules = { λ s. R.Terms.rules s.now };

    ghost bounded = { λ s. R.Terms.bounded s.now };

    fn longest(&self) -> u8 {
        (**self).longest()
    }

    fn is_open(&self, p: Practice) -> bool {
        (**self).is_open(p)
    }
}

impl<R: Register> Register for &mut R {
    fn enter(&mut self, t: Trainee, list: &[Practice]) -> Result<(), Refusal> {
        (**self).enter(t, list)
    }

    fn places(&mut self, p: Practice, n: u16) -> Result<(), Refusal> {
        (**self).places(p, n)
    }
}
