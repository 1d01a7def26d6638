// What a call that is lent a store answers.
#![tactic(auto)]

use refusals::Refused;

// The length in bytes of what it wrote, or the refusal with its line.
pub type Answer = Result<usize, Refused>;
