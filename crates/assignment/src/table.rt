// The table that the engine reads: what the rows of its trainees say of its practices.
ghost use Rattle.std.specs.Prelude.{◌≤◌, length};
ghost use Rattle.assignment.specs.Rows.{Roomy, Standing};

use crate::row::Row;
use arrayvec::ArrayVec;

/// Its bounds hold of every table, so no sum of the engine overflows.
#[derive(Drop)]
pub struct Table {
    pub(crate) places: ArrayVec<u16, 100>,
    pub(crate) rows: ArrayVec<Row, 400>,
    ghost few: { length rows.items ≤ 400 },
    ghost small: { length places.items ≤ 100 },
    ghost roomy: { Roomy places.items },
    ghost stands: { Standing (length places.items) rows.items },
}

/// Why a row is not taken.
#[derive(Clone, Copy, PartialEq, Eq, Debug)]
pub enum NotTaken {
    /// There are 400 rows.
    Full,
    /// A practice is unknown or named twice, there are more than 12, or a weight is too great.
    Unfit,
}
