// Rows as they are written.
ghost use Rattle.std.specs.Prelude.{◌≡◌, ◌≤◌, length, slice_index};
ghost use Rattle.rules.specs.Questions.{numbers};
ghost use Rattle.row_register.specs.Rows.{row_of};

use crate::row::Row;
use rules::words::Practice;
use std::array;

// The number of choice k, 0 past the list.
fn number_at(list: &[Practice], k: usize) -> u16
    ensures { result ≡ slice_index (numbers list.now) k }
{
    list.get(k).map_or(0, |p| p.0)
}

// The row that holds the list. No From: a list of more than 12 has no row, and a From asks nothing.
pub(crate) fn row_of(list: &[Practice]) -> Row
    requires { length list.now ≤ 12 }
    ensures { result ≡ row_of (numbers list.now) }
{
    Row {
        count: list.len() as u8,
        choices: array::from_fn(|k| number_at(list, k)),
    }
}
