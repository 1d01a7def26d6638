// The edition of ABC that a caller names, in code and definitions alike.
#![tactic(auto)]

// The first is as the Rust source reads; the second as ABC 2.1 has it where document 02 says so (T-03), and as the first in all else.
#[derive(Clone, Copy)]
pub enum Edition {
    First,
    Second,
}
