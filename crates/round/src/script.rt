// A script: calls with all that they take, and their answers.
use rules::words::{Practice, Refusal, Trainee};

/// A call of a script.
#[derive(Clone, Copy, PartialEq, Eq, Debug)]
pub enum Call<'a> {
    Enter(Trainee, &'a [Practice]),
    Places(Practice, u16),
    // with so many slots for waiting trainees, and for moves
    Allot(usize, usize),
    Seat(Trainee),
    // the offered bytes, and the room for a rival
    Challenge(&'a [u8], usize),
}

/// What a call answered.
#[derive(Clone, Copy, PartialEq, Eq, Debug)]
pub enum Answer {
    Entered(Result<(), Refusal>),
    Placed(Result<(), Refusal>),
    Allotted(Result<u16, Refusal>),
    Seated(Result<Option<Practice>, Refusal>),
    Challenged(Result<u16, Refusal>),
}

/// What serve hands back: the register, and whether the script was made.
#[derive(Drop)]
pub struct Served<R> {
    pub register: R,
    pub answer: Result<(), Refusal>,
}
