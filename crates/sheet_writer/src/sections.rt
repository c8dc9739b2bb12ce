// The sections of a sheet, each over the whole of the part of the buffer that it is lent.
ghost use Rattle.std.specs.Prelude.{◌≡◌, ◌≤◌, length};
ghost use Rattle.std.specs.List.{flat_map};
ghost use Rattle.sheet.specs.Format.{single, pair, measured, section};

use crate::lists::put_lists;
use rules::roll::Roll;
use rules::words::Practice;

// Two bytes, the high one first.
fn put_pair(v: u16, out: &mut [u8])
    requires { length out.old ≡ 2 }
    ensures { out.new ≡ pair v }
{
    out.copy_from_slice(&v.to_be_bytes());
}

fn put_places<R: Roll>(roll: &R, out: &mut [u8])
    requires { length out.old ≡ length (flat_map pair (R.entries roll.now).places) }
    ensures { out.new ≡ flat_map pair (R.entries roll.now).places }
{
    // By place: over chunks, or over a part that shrinks, nothing is known afterwards of what was written (tried: the proof did not close).
    for p in 0..roll.practices() {
        let at = 2 * p as usize;
        put_pair(roll.places_of(Practice(p)), &mut out[at..at + 2]);
    }
}

// The three sections have a count and a rest each. One function for all would take the rest as a closure over the buffer and be no shorter.
pub(crate) fn put_practices<R: Roll>(roll: &R, out: &mut [u8])
    requires { length out.old ≡ length (section pair (R.entries roll.now).places) }
    ensures { out.new ≡ section pair (R.entries roll.now).places }
{
    put_pair(roll.practices(), &mut out[0..2]);
    put_places(roll, &mut out[2..]);
}

pub(crate) fn put_trainees<R: Roll>(roll: &R, out: &mut [u8])
    requires { length out.old ≡ length (section measured (R.entries roll.now).lists) }
    ensures { out.new ≡ section measured (R.entries roll.now).lists }
{
    put_pair(roll.trainees(), &mut out[0..2]);
    put_lists(roll, &mut out[2..]);
}

pub(crate) fn put_filing(filing: &[u8], out: &mut [u8])
    requires few { length filing.now ≤ 400 }
    requires room { length out.old ≡ length (section single filing.now) }
    ensures { out.new ≡ section single filing.now }
{
    put_pair(filing.len() as u16, &mut out[0..2]);
    out[2..].copy_from_slice(filing);
}
