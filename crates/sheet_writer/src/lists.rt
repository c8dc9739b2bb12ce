// The lists of a roll, each behind its length.
ghost use Rattle.std.specs.Prelude.{◌≡◌, ◌<◌, ◌≤◌, length, slice_index};
ghost use Rattle.std.specs.List.{flat_map};
ghost use Rattle.rules.specs.Meaning.{trainees, list_of};
ghost use Rattle.sheet.specs.Format.{measured};

use rules::roll::Roll;
use rules::words::Trainee;

// How many bytes all lists take.
pub(crate) fn lists_length<R: Roll>(roll: &R) -> usize
    ensures few { result ≤ 5200 }
    ensures all { result ≡ length (flat_map measured (R.entries roll.now).lists) }
{
    (0..roll.trainees())
        .map(|t| 1 + usize::from(roll.list_length(Trainee(t))))
        .sum()
}

fn choice_byte<R: Roll>(roll: &R, t: Trainee, k: u8) -> u8
    requires { k < length (list_of (R.entries roll.now) t.0) }
    ensures { result ≡ slice_index (list_of (R.entries roll.now) t.0) k }
{
    roll.choice(t, k).map_or(0, |p| p.0 as u8)
}

// The choices of one list, over the whole of `out`.
fn put_choices<R: Roll>(roll: &R, t: Trainee, out: &mut [u8])
    requires { length out.old ≡ length (list_of (R.entries roll.now) t.0) }
    ensures { out.new ≡ list_of (R.entries roll.now) t.0 }
{
    for (k, byte) in out.iter_mut().enumerate() {
        *byte = choice_byte(roll, t, k as u8);
    }
}

// One list behind its length, over the whole of `out`.
fn put_list<R: Roll>(roll: &R, t: Trainee, out: &mut [u8])
    requires { length out.old ≡ length (measured (list_of (R.entries roll.now) t.0)) }
    ensures { out.new ≡ measured (list_of (R.entries roll.now) t.0) }
{
    out[0] = roll.list_length(t);
    put_choices(roll, t, &mut out[1..]);
}

// All lists, one behind the other.
pub(crate) fn put_lists<R: Roll>(roll: &R, out: &mut [u8])
    requires { length out.old ≡ length (flat_map measured (R.entries roll.now).lists) }
    ensures { out.new ≡ flat_map measured (R.entries roll.now).lists }
{
    // By place: over a part that shrinks, nothing is known afterwards of what was written (tried: the proof did not close).
    let mut at = 0;
    for t in 0..roll.trainees() {
        let end = at + 1 + usize::from(roll.list_length(Trainee(t)));
        put_list(roll, Trainee(t), &mut out[at..end]);
        at = end;
    }
}
