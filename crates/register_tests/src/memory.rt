// What the caller's memory holds once a register over it is gone. One function for each register, since only a register's own
// clauses `cells` and `rows` speak of the memory, and no trait does.
ghost use Rattle.std.specs.Prelude.{◌≡◌, ◌*◌, length};
ghost use Rattle.rules.specs.Questions.{numbers};
ghost use Rattle.rank_grid.specs.Ranks as in_cells;
ghost use Rattle.row_register.specs.Rows as in_rows;
ghost use Rattle.register_tests.specs.After.{just_opened, after};

use rank_grid::grid::RankGrid;
use row_register::row::Row;
use row_register::table::RowRegister;
use rules::register::Register;
use rules::words::{Practice, Refusal, Trainee};

// One list entered in a grid just opened.
pub fn enter_in_cells(
    practices: u16,
    trainees: u16,
    cells: &mut [u8],
    t: Trainee,
    list: &[Practice],
) -> Result<(), Refusal>
    ensures answer { result ≡ (after in_cells.holding (just_opened practices trainees (trainees * practices) (length cells.old)) cells.old t.0 (numbers list.now)).0 }
    ensures cells { cells.new ≡ (after in_cells.holding (just_opened practices trainees (trainees * practices) (length cells.old)) cells.old t.0 (numbers list.now)).1 }
{
    RankGrid::open(practices, trainees, cells).enter(t, list)
}

// One list entered in a row register just opened.
pub fn enter_in_rows(
    practices: u16,
    trainees: u16,
    rows: &mut [Row],
    t: Trainee,
    list: &[Practice],
) -> Result<(), Refusal>
    ensures answer { result ≡ (after in_rows.holding (just_opened practices trainees trainees (length rows.old)) rows.old t.0 (numbers list.now)).0 }
    ensures rows { rows.new ≡ (after in_rows.holding (just_opened practices trainees trainees (length rows.old)) rows.old t.0 (numbers list.now)).1 }
{
    RowRegister::open(practices, trainees, rows).enter(t, list)
}
