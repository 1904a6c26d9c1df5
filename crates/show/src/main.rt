// A report on the heap that standard input holds.
#![tactic(auto)]

use std::io;

fn main(rt: HostRuntime) -> io::Result<()> {
    showing::run(&rt)
}
