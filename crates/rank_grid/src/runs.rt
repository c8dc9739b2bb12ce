// A trainee's run of cells: one for each practice, 0 where it is not listed, else its position and 1. The caller lends
// cells and reads them, so their form is fixed: a byte, no Option.
ghost use Rattle.std.specs.Prelude.{◌≡◌, ◌+◌, ◌*◌, ◌≤◌, max, length, unwrap_or};
ghost use Rattle.std.specs.List.{reduce};
ghost use Rattle.rules.specs.Meaning.{Strict};
ghost use Rattle.rules.specs.Questions.{numbers};
ghost use Rattle.rank_grid.specs.Ranks.{ranks};
ghost use Rattle.rank_grid.specs.Reading.{written};

use rules::words::{Practice, Trainee};

// The greatest rank.
pub(crate) fn greatest(run: &[u8]) -> u8
    ensures { result ≡ unwrap_or (reduce max run.now) 0 }
{
    run.iter().copied().max().unwrap_or(0)
}

// Writes the ranks of the list over the whole run.
fn write_ranks(run: &mut [u8], list: &[Practice])
    requires { Strict (length run.old) (numbers list.now) }
    ensures { run.new ≡ ranks (length run.old) (numbers list.now) }
{
    run.fill(0);
    for (i, p) in list.iter().enumerate() {
        run[p.0 as usize] = i as u8 + 1;
    }
}

// Writes the run of trainee t among all the cells.
pub(crate) fn write_run(cells: &mut [u8], practices: usize, t: Trainee, list: &[Practice])
    requires room { t.0 * practices + practices ≤ length cells.old }
    requires strict { Strict practices (numbers list.now) }
    ensures { cells.new ≡ written cells.old practices t.0 (numbers list.now) }
{
    let start = t.0 as usize * practices;
    write_ranks(&mut cells[start..start + practices], list);
}
