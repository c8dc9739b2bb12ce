// Writing a roll with a filing, and writing a sheet again.
ghost use Rattle.std.specs.Prelude.{◌≡◌, ℕ, ◌≤◌, length, take, Ok};
ghost use Rattle.sheet.specs.Format.{sheet};
ghost use Rattle.sheet.specs.Reading.{reading};
ghost use Rattle.sheet.specs.Opened.{opened};
ghost use Rattle.sheet_writer.specs.Over.{over};
ghost use Rattle.sheet_writer.specs.Writing.{write_outcome, rewrite_outcome};

use crate::lists::lists_length;
use crate::refusal::check_write;
use crate::sections::{put_filing, put_practices, put_trainees};
use rules::roll::Roll;
use rules::words::Refusal;
use sheet::check::check;
use sheet::opening::open;

// Each section goes into the buffer behind the one before it.
fn put_sheet<R: Roll>(roll: &R, filing: &[u8], out: &mut [u8]) -> usize
    requires few { length filing.now ≤ 400 }
    requires room { length (sheet (R.entries roll.now) filing.now) ≤ length out.old }
    ensures end { result ≡ length (sheet (R.entries roll.now) filing.now) }
    ensures bytes { out.new ≡ over (sheet (R.entries roll.now) filing.now) out.old }
{
    let one = 2 + 2 * roll.practices() as usize;
    let two = one + 2 + lists_length(roll);
    let three = two + 2 + filing.len();
    put_practices(roll, &mut out[0..one]);
    put_trainees(roll, &mut out[one..two]);
    put_filing(filing, &mut out[two..three]);
    three
}

// What is written reads as the entries of the roll and the filing, and opens as them.
pub fn write<R: Roll>(roll: &R, filing: &[u8], buffer: &mut [u8]) -> Result<usize, Refusal>
    ensures outcome { write_outcome (R.entries roll.now) filing.now buffer.old ≡ (result, buffer.new) }
    ensures reads { (n : ℕ) → result ≡ Ok n → reading (take n buffer.new) ≡ Ok (R.entries roll.now, filing.now) }
    ensures opens { (n : ℕ) → result ≡ Ok n → opened (take n buffer.new) ≡ (R.entries roll.now, filing.now) }
{
    check_write(roll, filing, buffer.len())?;
    Ok(put_sheet(roll, filing, buffer))
}

// An accepted sheet, opened and written again with its own filing, is the same bytes.
pub fn rewrite(bytes: &[u8], buffer: &mut [u8]) -> Result<usize, Refusal>
    ensures { rewrite_outcome bytes.now buffer.old ≡ (result, buffer.new) }
{
    check(bytes)?;
    let sheet = open(bytes);
    write(&sheet, sheet.filing(), buffer)
}
