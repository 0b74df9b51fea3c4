// The edges of document 01, each run once: what the library answers, line by line.
#![tactic(auto)]

mod listings;
mod reading;

use std::io;

fn main(rt: HostRuntime) -> io::Result<()> {
    let mut to = rt.stdout();
    reading::run(&mut to)?;
    listings::run(&mut to)
}
