// Replays a fixed sample of the second reader's answers to whole texts in the second edition, where the Rust is no judge.
#![tactic(auto)]

use editions::Edition;
use std::io::Result;

fn main(rt: HostRuntime) -> Result<()> {
    test_texts::run(&rt, &mut rt.stdin(), Edition::Second)
}
