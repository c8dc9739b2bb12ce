// Whether a register of so many can be opened over so much memory.
ghost use Rattle.std.specs.Prelude.{◌≡◌};
ghost use Rattle.rules.specs.Refusals.{answer_of};
ghost use Rattle.opening.specs.Opening.{opening_refusal};

use rules::words::{Layer, Reason, Refusal};

// Needed and lent count what the register keeps its lists in.
pub fn check_opening(
    practices: u16,
    trainees: u16,
    needed: usize,
    lent: usize,
) -> Result<(), Refusal>
    ensures { result ≡ answer_of (opening_refusal practices trainees needed lent) }
{
    if practices > 100 {
        return Err(Layer::Register.refusal(Reason::CountOutOfBounds, practices as usize));
    }
    if trainees > 400 {
        return Err(Layer::Register.refusal(Reason::CountOutOfBounds, trainees as usize));
    }
    if needed > lent {
        return Err(Layer::Register.refusal(Reason::WrongLength, needed));
    }
    Ok(())
}
