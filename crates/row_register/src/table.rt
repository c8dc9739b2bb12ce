// The row register: its rows are the caller's.
ghost use Rattle.std.specs.Prelude.{◌≡◌, ℕ, ◌<◌, ◌≤◌, length, slice_index};
ghost use Rattle.rules.specs.Meaning.{Lawful};
ghost use Rattle.rules.proofs.Lawfully.{lawful_prop};
ghost use Rattle.row_register.specs.Reading.{row_at, entries_of};

use crate::row::Row;
use opening::numbers::Numbers;

pub mod calls;
pub mod opened;
pub mod questions;

/// One row for each trainee, read and rewritten in place.
// No instance of one generic register with the rank grid, as is said there.
#[derive(Drop)]
pub struct RowRegister<'a> {
    rows: &'a mut [Row],
    numbers: Numbers,
    ghost room: { numbers.trainees ≤ length rows.now },
    ghost few: { (t : ℕ) → t < numbers.trainees → (row_at rows.now t).count ≤ 12 },
    ghost long: { (t : ℕ) → t < numbers.trainees → length (row_at rows.now t).choices ≡ 12 },
    ghost zeros: { (t : ℕ) → t < numbers.trainees → (k : ℕ) → (row_at rows.now t).count ≤ k → slice_index (row_at rows.now t).choices k ≡ 0 },
    ghost law: { Lawful (entries_of rows.now numbers.trainees numbers.places.items) } by { lawful_prop (entries_of rows.now numbers.trainees numbers.places.items) },
}
