// Document 01's tally of standard input. The stored input is document 01's example.
#![tactic(auto)]

use std::io::Result;

fn main(rt: HostRuntime) -> Result<()> {
    tally_run::run(&rt, &mut rt.stdin())
}
