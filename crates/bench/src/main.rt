// Reads a plan from standard input, and prints its report.
#![tactic(auto)]

use report::report;
use std::io;
use std::io::Read;

// One byte more than the longest plan.
const ENOUGH: u64 = 65_537;

fn main(rt: HostRuntime) -> io::Result<()> {
    let mut bytes = Vec::new(rt.alloc());
    rt.stdin().take(ENOUGH).read_to_end(&mut bytes)?;
    for line in report(rt.alloc(), bytes.as_slice())? {
        println!(rt; "{line}")?;
    }
    Ok(())
}
