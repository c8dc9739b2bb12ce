// What allot finds.
use rules::words::Practice;

/// A seat for each of 400, none past the trainees, as a round's table has it; and how many have a practice.
#[derive(Drop)]
pub struct Found {
    pub seats: [Option<Practice>; 400],
    pub seated: u16,
}
