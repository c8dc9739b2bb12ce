// Where trainees are placed.
use rules::words::Practice;

/// A seat for each of 400, none past the trainees: callers copy it whole into tables of 400.
#[derive(Drop)]
pub struct Placed {
    pub seats: [Option<Practice>; 400],
}
