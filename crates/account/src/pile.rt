// The delivered pile, Short over Closed over the rank grid: how it is opened, and a script run on it.
use anyhow::anyhow;
use layers::closed::Closed;
use layers::short::Short;
use rank_grid::grid::RankGrid;
use round::script::{Answer, Call};
use round::serving::serve;
use rules::register::Register;
use rules::words::{Practice, Refusal};
use std::alloc::{AllocError, Global};

/// How the round is opened, and how many choices of a list it shows.
#[derive(Clone, Copy, Default)]
pub struct Opening {
    pub practices: u16,
    pub trainees: u16,
    pub most: u8,
}

impl Opening {
    pub fn check(self) -> Result<(), Refusal> {
        RankGrid::check(self.practices, self.trainees, usize::MAX)
    }

    // The trainees that the round has: none where its opening is refused.
    pub fn trainees_taken(self) -> u16 {
        if self.check().is_ok() {
            self.trainees
        } else {
            0
        }
    }

    fn cells(self) -> usize {
        usize::from(self.practices) * usize::from(self.trainees_taken())
    }
}

// Closes each practice in turn.
fn close_all<R: Register>(
    heap: Global,
    layer: &mut Closed<R>,
    closed: &[Practice],
) -> Result<Vec<Result<(), Refusal>>, AllocError> {
    closed.iter().map(|p| layer.close(*p)).collect(heap)
}

// Opens the pile, closes what is to be closed, and serves the script; what the closings answered.
pub fn run_pile(
    heap: Global,
    opening: Opening,
    closed: &[Practice],
    script: &[Call<'_>],
    answers: &mut [Answer],
    placements: &mut [u8],
) -> anyhow::Result<Vec<Result<(), Refusal>>> {
    let mut cells = vec![in heap; 0u8; opening.cells()]?;
    let mut grid = RankGrid::open(opening.practices, opening.trainees, cells.as_mut_slice());
    let mut layer = Closed::new(&mut grid);
    let closings = close_all(heap, &mut layer, closed)?;
    serve(Short::new(layer, opening.most), script, answers, placements)
        .answer
        .map_err(|_| anyhow!("there is too little memory for the account"))?;
    Ok(closings)
}
