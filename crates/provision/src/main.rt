// Reads a network and orders from standard input, and writes the log to standard output.
#![tactic(auto)]

use orders::run;
use std::io::{self, Read, Write};

fn main(rt: HostRuntime) -> io::Result<()> {
    let mut input = Vec::new(rt.alloc());
    rt.stdin().read_to_end(&mut input)?;
    let log = run(&input, rt.alloc())?;
    rt.stdout().write_all(log.bytes())
}
