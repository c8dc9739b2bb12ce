// How a rank grid is opened over the caller's cells.
ghost use Rattle.std.specs.Prelude.{◌≡◌, ◌*◌, length};
ghost use Rattle.rules.specs.Refusals.{answer_of};
ghost use Rattle.opening.specs.Opening.{opening_refusal, opened};
ghost use Rattle.rank_grid.specs.Ranks.{holding};
ghost use Rattle.rank_grid.specs.Grid.{grid_meaning};

use crate::grid::RankGrid;
use opening::numbers::Numbers;
use opening::room::check_opening;
use rules::words::Refusal;

// The cells that so many need.
fn needed(practices: u16, trainees: u16) -> usize
    ensures { result ≡ trainees * practices }
{
    trainees as usize * practices as usize
}

impl<'a> RankGrid<'a> {
    // Whether a grid of so many can be opened over so many cells.
    pub fn check(practices: u16, trainees: u16, cells: usize) -> Result<(), Refusal>
        ensures { result ≡ answer_of (opening_refusal practices trainees (trainees * practices) cells) }
    {
        check_opening(practices, trainees, needed(practices, trainees), cells)
    }

    // All lists empty and all places 1; what the check refuses opens as a grid of nobody.
    pub fn open(practices: u16, trainees: u16, cells: &'a mut [u8]) -> RankGrid<'a>
        ensures meaning { grid_meaning result ≡ opened (opening_refusal practices trainees (trainees * practices) (length cells.old)) practices trainees }
        ensures cells { result.cells.now ≡ holding (grid_meaning result).entries cells.old }
        ensures lent { result.cells.ghost_name ≡ cells.entry.ghost_name }
    {
        let numbers = Numbers::opened(
            practices,
            trainees,
            needed(practices, trainees),
            cells.len(),
        );
        let used = needed(numbers.practices(), numbers.trainees);
        cells[..used].fill(0);
        RankGrid { cells, numbers }
    }
}
