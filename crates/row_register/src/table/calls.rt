// What a row register takes; of the caller's rows each call says what they hold then.
ghost use Rattle.std.specs.Prelude.{◌≡◌};
ghost use Rattle.rules.specs.Questions.{numbers};
ghost use Rattle.rules.specs.Refusals.{enter_outcome, places_outcome};
ghost use Rattle.row_register.specs.Rows.{holding};
ghost use Rattle.row_register.specs.Table.{row_meaning};

use crate::table::RowRegister;
use crate::written::row_of;
use rules::entry::{check_entry, check_places};
use rules::register::Register;
use rules::roll::Roll;
use rules::terms::Terms;
use rules::words::{Practice, Refusal, Trainee};

impl Register for RowRegister<'_> {
    fn enter(&mut self, t: Trainee, list: &[Practice]) -> Result<(), Refusal>
        ensures enters { enter_outcome (row_meaning self.old) t.0 (numbers list.now) ≡ (result, row_meaning self.new) }
        ensures rows { self.new.rows.now ≡ holding (row_meaning self.new).entries self.old.rows.now }
        ensures lent { self.new.rows.ghost_name ≡ self.old.rows.ghost_name }
    {
        check_entry(self, t, list)?;
        self.rows[t.0 as usize] = row_of(list);
        Ok(())
    }

    fn places(&mut self, p: Practice, n: u16) -> Result<(), Refusal>
        ensures places { places_outcome (row_meaning self.old) p.0 n ≡ (result, row_meaning self.new) }
        ensures rows { self.new.rows.now ≡ self.old.rows.now }
        ensures lent { self.new.rows.ghost_name ≡ self.old.rows.ghost_name }
    {
        check_places(self, p, n)?;
        self.numbers.set_places(p, n);
        Ok(())
    }
}
