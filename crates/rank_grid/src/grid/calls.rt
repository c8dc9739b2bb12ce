// What a rank grid takes; of the caller's cells each call says what they hold then.
ghost use Rattle.std.specs.Prelude.{◌≡◌};
ghost use Rattle.rules.specs.Questions.{numbers};
ghost use Rattle.rules.specs.Refusals.{enter_outcome, places_outcome};
ghost use Rattle.rank_grid.specs.Ranks.{holding};
ghost use Rattle.rank_grid.specs.Grid.{grid_meaning};

use crate::grid::RankGrid;
use crate::runs::write_run;
use rules::entry::{check_entry, check_places};
use rules::register::Register;
use rules::roll::Roll;
use rules::terms::Terms;
use rules::words::{Practice, Refusal, Trainee};

impl Register for RankGrid<'_> {
    fn enter(&mut self, t: Trainee, list: &[Practice]) -> Result<(), Refusal>
        ensures enters { enter_outcome (grid_meaning self.old) t.0 (numbers list.now) ≡ (result, grid_meaning self.new) }
        ensures cells { self.new.cells.now ≡ holding (grid_meaning self.new).entries self.old.cells.now }
        ensures lent { self.new.cells.ghost_name ≡ self.old.cells.ghost_name }
    {
        check_entry(self, t, list)?;
        let practices = self.numbers.places.len();
        write_run(self.cells, practices, t, list);
        Ok(())
    }

    fn places(&mut self, p: Practice, n: u16) -> Result<(), Refusal>
        ensures places { places_outcome (grid_meaning self.old) p.0 n ≡ (result, grid_meaning self.new) }
        ensures cells { self.new.cells.now ≡ self.old.cells.now }
        ensures lent { self.new.cells.ghost_name ≡ self.old.cells.ghost_name }
    {
        check_places(self, p, n)?;
        self.numbers.set_places(p, n);
        Ok(())
    }
}
