// Prints the report of each plan file that the arguments name.
#![tactic(auto)]

use report::report;
use std::{env, fs, io};

fn main(rt: HostRuntime) -> io::Result<()> {
    for name in env::args(&rt)?.skip(1) {
        let bytes = fs::read(&rt, name.as_str())?;
        println!(rt; "{name}")?;
        for line in report(rt.alloc(), bytes.as_slice())? {
            println!(rt; "{line}")?;
        }
    }
    Ok(())
}
