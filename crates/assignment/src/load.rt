// A table is made row by row.
ghost use Rattle.std.specs.Prelude.{◌≡◌, ◌<◌, ◌==◌, true, false, []};
ghost use Rattle.std.specs.List.{list_any};
ghost use Rattle.assignment.specs.Rows.{GoodRow, row_of};
ghost use Rattle.assignment.specs.States.{trainees_in, row};
ghost use Rattle.assignment.specs.Tables.{entries, Opened, OpenedAt, Added};

use crate::row::{Choice, GREATEST, Row};
use crate::table::{NotTaken, Table};
use arrayvec::ArrayVec;
use rules::words::Practice;

// Whether the practice is among the choices.
fn is_chosen(choices: &[Choice], p: Practice) -> bool
    ensures { result ≡ list_any (λ c. c.practice.0 == p.0) choices.now }
{
    choices.iter().any(|choice| choice.practice == p)
}

impl Row {
    // Whether the row may stand in a table over m practices.
    fn is_good(&self, m: usize) -> bool
        ensures yes { result ≡ true → GoodRow m self.now }
        ensures no { result ≡ false → GoodRow m self.now → ⊥ }
    {
        if self.none > GREATEST {
            return false;
        }
        let choices = self.list();
        for (i, choice) in choices.iter().enumerate() {
            if choice.practice.0 as usize >= m
                || choice.weight > GREATEST
                || is_chosen(&choices[..i], choice.practice)
            {
                return false;
            }
        }
        true
    }
}

impl Table {
    // The row of a trainee.
    pub(crate) fn row(&self, t: usize) -> &Row
        requires { t < trainees_in self.now }
        ensures { result.now ≡ row self.now t }
    {
        &self.rows[t]
    }

    // A table with no practices and no trainees yet.
    pub fn vacant() -> Table
        ensures { entries result ≡ record { places = []; lists = [] } }
    {
        Table {
            places: ArrayVec::new(),
            rows: ArrayVec::new(),
        }
    }

    // Opens the table over practices with these places, with no trainees: whether it could. A table is large, so one is opened where it lies.
    pub fn open(&mut self, places: &[u16]) -> bool
        ensures { OpenedAt self.old places.now result self.new }
    {
        if places.len() > 100 || places.contains(&0) {
            return false;
        }
        self.rows.clear();
        self.places.clear();
        self.places.try_extend_from_slice(places).is_ok()
    }

    // A table over practices with these places, with no trainees yet.
    pub fn new(places: &[u16]) -> Option<Table>
        ensures { Opened places.now result }
    {
        let mut table = Table::vacant();
        if table.open(places) {
            Some(table)
        } else {
            None
        }
    }

    // Puts the row of these choices at the end, where it may stand there.
    pub fn add(&mut self, choices: &[Choice], none: u32) -> Result<(), NotTaken>
        ensures { Added self.old (row_of choices.now none) result self.new }
    {
        if self.rows.is_full() {
            return Err(NotTaken::Full);
        }
        let row = Row::of(choices, none).ok_or(NotTaken::Unfit)?;
        if !row.is_good(self.places.len()) {
            return Err(NotTaken::Unfit);
        }
        self.rows.push(row);
        Ok(())
    }
}
