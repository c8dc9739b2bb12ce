// What a row register answers.
ghost use Rattle.std.specs.Prelude.{◌≡◌};
ghost use Rattle.std.proofs.Common.{le_refl};
ghost use Rattle.rules.specs.Meaning.{list_of};
ghost use Rattle.row_register.specs.Table.{row_meaning};

use crate::table::RowRegister;
use rules::found::place_of;
use rules::roll::Roll;
use rules::terms::Terms;
use rules::words::{Practice, Trainee};

impl RowRegister<'_> {
    // The list of trainee t, empty for one that there is not.
    fn list(&self, t: Trainee) -> &[u16]
        ensures { result.now ≡ list_of (row_meaning self.now).entries t.0 }
    {
        if t.0 >= self.numbers.trainees {
            return &[];
        }
        let rows = &*self.rows;
        let row = &rows[t.0 as usize];
        &row.choices[..row.count as usize]
    }
}

impl Roll for RowRegister<'_> {
    ghost entries = { λ s. (row_meaning s).entries };

    ghost lawful = { λ s. s.law };

    fn trainees(&self) -> u16 {
        self.numbers.trainees
    }

    fn practices(&self) -> u16 {
        self.numbers.practices()
    }

    fn places_of(&self, p: Practice) -> u16 {
        self.numbers.places_of(p)
    }

    fn list_length(&self, t: Trainee) -> u8 {
        self.list(t).len() as u8
    }

    fn choice(&self, t: Trainee, k: u8) -> Option<Practice> {
        self.list(t).get(k as usize).copied().map(Practice)
    }

    fn position(&self, t: Trainee, p: Practice) -> Option<u8> {
        let k = place_of(self.list(t), &p.0)?;
        Some(k as u8)
    }
}

impl Terms for RowRegister<'_> {
    ghost rules = { λ s. (row_meaning s).rules };

    ghost bounded = { λ s. le_refl 12 };

    fn longest(&self) -> u8 {
        12
    }

    fn is_open(&self, p: Practice) -> bool {
        self.numbers.has(p)
    }
}
