// How a row register is opened over the caller's rows.
ghost use Rattle.std.specs.Prelude.{◌≡◌, length};
ghost use Rattle.rules.specs.Refusals.{answer_of};
ghost use Rattle.opening.specs.Opening.{opening_refusal, opened};
ghost use Rattle.row_register.specs.Rows.{holding};
ghost use Rattle.row_register.specs.Table.{row_meaning};

use crate::row::Row;
use crate::table::RowRegister;
use crate::written::row_of;
use opening::numbers::Numbers;
use opening::room::check_opening;
use rules::words::Refusal;

impl<'a> RowRegister<'a> {
    // Whether a register of so many can be opened over so many rows.
    pub fn check(practices: u16, trainees: u16, rows: usize) -> Result<(), Refusal>
        ensures { result ≡ answer_of (opening_refusal practices trainees trainees rows) }
    {
        check_opening(practices, trainees, trainees as usize, rows)
    }

    // All lists empty and all places 1; what the check refuses opens as a register of nobody.
    pub fn open(practices: u16, trainees: u16, rows: &'a mut [Row]) -> RowRegister<'a>
        ensures meaning { row_meaning result ≡ opened (opening_refusal practices trainees trainees (length rows.old)) practices trainees }
        ensures rows { result.rows.now ≡ holding (row_meaning result).entries rows.old }
        ensures lent { result.rows.ghost_name ≡ rows.entry.ghost_name }
    {
        let numbers = Numbers::opened(practices, trainees, trainees as usize, rows.len());
        rows[..numbers.trainees as usize].fill(row_of(&[]));
        RowRegister { rows, numbers }
    }
}
