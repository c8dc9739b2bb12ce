// Reads a sheet from standard input and prints the strongest rival of its filed placement.
#![tactic(auto)]

use report::challenge::challenge_of;
use std::io::Read;

// The input is read here, since there is no heap below the programs.
fn main(rt: HostRuntime) -> anyhow::Result<()> {
    let mut sheet = Vec::new(rt.alloc());
    rt.stdin().read_to_end(&mut sheet)?;
    rt.write_all(challenge_of(sheet.as_slice()).as_bytes())?;
    Ok(())
}
