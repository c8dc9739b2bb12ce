// The check of an entry that every register and layer shares.
ghost use Rattle.std.specs.Prelude.{◌≡◌};
ghost use Rattle.rules.specs.Meaning.{meant};
ghost use Rattle.rules.specs.Questions.{listed, numbers};
ghost use Rattle.rules.specs.Refusals.{off_places, entry_refusal, places_refusal, answer_of};

use crate::roll::Roll;
use crate::terms::Terms;
use crate::words::{Layer, Practice, Reason, Refusal, Trainee};

// A number of places is 1 to 400.
pub fn check_number(n: u16) -> Result<(), Reason>
    ensures { result ≡ answer_of (off_places n) }
{
    if 1 <= n && n <= 400 {
        Ok(())
    } else {
        Err(Reason::PlacesOutOfBounds)
    }
}

// Whether p stands on the list.
fn is_listed(list: &[Practice], p: Practice) -> bool
    ensures { result ≡ listed (numbers list.now) p.0 }
{
    list.contains(&p)
}

// Whether a list may be entered, by the register's own questions: the order of the table, through every pile.
pub fn check_entry<R: Terms>(r: &R, t: Trainee, list: &[Practice]) -> Result<(), Refusal>
    ensures { result ≡ answer_of (entry_refusal (meant R.Roll.entries R.Terms.rules r.now) t.0 (numbers list.now)) }
{
    if t.0 >= r.trainees() {
        return Err(Layer::Register.refusal(Reason::NoSuchTrainee, t.0 as usize));
    }
    let longest = r.longest() as usize;
    if list.len() > longest {
        return Err(Layer::Register.refusal(Reason::CountOutOfBounds, longest));
    }
    for (i, p) in list.iter().enumerate() {
        if !r.is_open(*p) {
            return Err(Layer::Register.refusal(Reason::PracticeNotOffered, i));
        }
        if is_listed(&list[..i], *p) {
            return Err(Layer::Register.refusal(Reason::Repeated, i));
        }
    }
    Ok(())
}

// Whether a practice's places may be changed to this number, by the register's own questions.
pub fn check_places<R: Terms>(r: &R, p: Practice, n: u16) -> Result<(), Refusal>
    ensures { result ≡ answer_of (places_refusal (meant R.Roll.entries R.Terms.rules r.now) p.0 n) }
{
    if p.0 >= r.practices() {
        return Err(Layer::Register.refusal(Reason::NoSuchPractice, p.0 as usize));
    }
    check_number(n).map_err(|reason| Layer::Register.refusal(reason, p.0 as usize))
}
