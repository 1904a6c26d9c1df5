// Answers the questions on heaps that standard input holds.
#![tactic(auto)]

use std::io;

fn main(rt: HostRuntime) -> io::Result<()> {
    asking::run(&rt)
}
