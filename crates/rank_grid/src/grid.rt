// The rank grid: its cells are the caller's.
ghost use Rattle.std.specs.Prelude.{◌≡◌, ◌*◌, ◌≤◌, length};
ghost use Rattle.rules.specs.Meaning.{Lawful};
ghost use Rattle.rules.proofs.Lawfully.{lawful_prop};
ghost use Rattle.rank_grid.specs.Reading.{lists_of, entries_of, Shows};

use opening::numbers::Numbers;

pub mod calls;
pub mod opened;
pub mod questions;

/// One cell for each trainee and practice, that of trainee t and practice p at t × practices + p.
// No instance of one generic register with the row register: generic would be five answers of one line, handed to `Numbers`, and the two calls,
// while the trait below it would want a law of its own for how a list is read, written and held in memory.
#[derive(Drop)]
pub struct RankGrid<'a> {
    cells: &'a mut [u8],
    numbers: Numbers,
    ghost room: { numbers.trainees * length numbers.places.items ≤ length cells.now },
    ghost shows: { Shows cells.now numbers.trainees (length numbers.places.items) (lists_of cells.now numbers.trainees (length numbers.places.items)) },
    ghost law: { Lawful (entries_of cells.now numbers.trainees numbers.places.items) } by { lawful_prop (entries_of cells.now numbers.trainees numbers.places.items) },
}
