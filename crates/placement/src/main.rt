// Reads a sheet from standard input and prints its report.
#![tactic(auto)]

use report::report::report_of;
use std::io::Read;

// The input is read here, since there is no heap below the programs.
fn main(rt: HostRuntime) -> anyhow::Result<()> {
    let mut sheet = Vec::new(rt.alloc());
    rt.stdin().read_to_end(&mut sheet)?;
    rt.write_all(report_of(sheet.as_slice()).as_bytes())?;
    Ok(())
}
