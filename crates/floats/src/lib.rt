// Numbers: the helpers on `f64` that every layer above shares. Each answers every `f64`, so that no
// caller owes a proof about its argument.
#![tactic(auto)]

pub mod float;
pub mod root;
