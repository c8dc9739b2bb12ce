// The state of the engine: who sits where, and the prices.
use rules::words::Practice;

/// A trainee's seat and value.
#[derive(Clone, Copy)]
pub struct TraineeState {
    pub seat: Option<Practice>,
    pub value: u32,
}

/// How many sit at a practice, and its price.
#[derive(Clone, Copy, Default)]
pub struct PracticeState {
    pub count: u16,
    pub price: u32,
}

/// The trainees below the newcomer are placed.
// Arrays, not vectors that grow with the newcomer: each of 400 hopes for the most from the start, and the seats are handed out whole.
#[derive(Drop)]
pub struct State {
    pub newcomer: usize,
    pub trainees: [TraineeState; 400],
    pub practices: [PracticeState; 100],
}

/// Where a search ends: the trainee may take the seat.
#[derive(Clone, Copy)]
pub struct End {
    pub trainee: usize,
    pub seat: Option<Practice>,
}
