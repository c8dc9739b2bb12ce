// The calls of a script, with their lists and offered placements.
use round::script::Call;
use rules::words::{Practice, Trainee};

/// A call on the round as its line says it. A list or an offered placement is kept apart, behind those of the lines before: here stands how long it is.
#[derive(Clone, Copy)]
pub enum Planned {
    Enter(Trainee, usize),
    Places(Practice, u16),
    Allot(usize, usize),
    Seat(Trainee),
    Challenge(usize),
}

/// The lists and offered placements of all lines, one behind another: in one vector each, since a block for each line would take more memory.
#[derive(Drop)]
pub struct Kept {
    pub practices: Vec<Practice>,
    pub offered: Vec<u8>,
}

impl Kept {
    // The list or offered placement of the latest call is kept no longer.
    pub fn forget(&mut self, call: Planned) {
        match call {
            Planned::Enter(_, n) => self
                .practices
                .truncate(self.practices.len().saturating_sub(n)),
            Planned::Challenge(n) => self.offered.truncate(self.offered.len().saturating_sub(n)),
            _ => {}
        }
    }
}

impl Planned {
    // Its list or offered placement is the front of what is left of those kept. A challenge has room for as many seats as there are trainees.
    pub fn on<'a>(
        self,
        trainees: usize,
        practices: &mut &'a [Practice],
        offered: &mut &'a [u8],
    ) -> Call<'a> {
        match self {
            Planned::Enter(t, n) => Call::Enter(t, practices.split_off(..n).unwrap_or(&[])),
            Planned::Places(p, n) => Call::Places(p, n),
            Planned::Allot(waiting, moves) => Call::Allot(waiting, moves),
            Planned::Seat(t) => Call::Seat(t),
            Planned::Challenge(n) => {
                Call::Challenge(offered.split_off(..n).unwrap_or(&[]), trainees)
            }
        }
    }
}
