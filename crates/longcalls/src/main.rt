// The call-list program, on a long list that the second program wrote, with what it must print.
#![tactic(auto)]

use std::io;

fn main(rt: HostRuntime) -> io::Result<()> {
    listing::run(&rt)
}
