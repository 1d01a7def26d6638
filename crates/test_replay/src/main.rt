// Replays a fixed sample of the Rust's answers to whole texts.
#![tactic(auto)]

use editions::Edition;
use std::io::Result;

fn main(rt: HostRuntime) -> Result<()> {
    test_texts::run(&rt, &mut rt.stdin(), Edition::First)
}
