// What a rank grid answers.
ghost use Rattle.std.specs.Prelude.{◌≡◌};
ghost use Rattle.std.proofs.Common.{le_refl};
ghost use Rattle.rank_grid.specs.Ranks.{run_of};
ghost use Rattle.rank_grid.specs.Grid.{grid_meaning};

use crate::grid::RankGrid;
use crate::runs::greatest;
use rules::found::place_of;
use rules::roll::Roll;
use rules::terms::Terms;
use rules::words::{Practice, Trainee};

impl RankGrid<'_> {
    // The run of trainee t, empty for one that there is not.
    fn run(&self, t: Trainee) -> &[u8]
        ensures { result.now ≡ run_of (grid_meaning self.now).entries t.0 }
    {
        if t.0 >= self.numbers.trainees {
            return &[];
        }
        let practices = self.numbers.places.len();
        let start = t.0 as usize * practices;
        &self.cells[start..start + practices]
    }
}

impl Roll for RankGrid<'_> {
    ghost entries = { λ s. (grid_meaning s).entries };

    ghost lawful = { λ s. s.law };

    fn trainees(&self) -> u16 {
        self.numbers.trainees
    }

    fn practices(&self) -> u16 {
        self.numbers.practices()
    }

    fn places_of(&self, p: Practice) -> u16 {
        self.numbers.places_of(p)
    }

    fn list_length(&self, t: Trainee) -> u8 {
        greatest(self.run(t))
    }

    fn choice(&self, t: Trainee, k: u8) -> Option<Practice> {
        if k >= 12 {
            return None;
        }
        let p = place_of(self.run(t), &(k + 1))?;
        Some(Practice(p as u16))
    }

    fn position(&self, t: Trainee, p: Practice) -> Option<u8> {
        let rank = self.run(t).get(p.0 as usize).copied().unwrap_or(0);
        rank.checked_sub(1)
    }
}

impl Terms for RankGrid<'_> {
    ghost rules = { λ s. (grid_meaning s).rules };

    ghost bounded = { λ s. le_refl 12 };

    fn longest(&self) -> u8 {
        12
    }

    fn is_open(&self, p: Practice) -> bool {
        self.numbers.has(p)
    }
}
