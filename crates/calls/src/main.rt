// The call-list program, on document 01's example.
#![tactic(auto)]

use std::io;

fn main(rt: HostRuntime) -> io::Result<()> {
    listing::run(&rt)
}
