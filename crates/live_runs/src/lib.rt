// Whole runs of the live thinner, each call given the last one's state: what they hand out is stated and proved here, over the
// definitions of `live`. There is no code in this crate.
#![tactic(auto)]
