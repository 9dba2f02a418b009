// The search for the first farthest point of a range from its chord: of pairs, triples and commands, by each distance.
// Thinning and the fit cut a range there.
#![tactic(auto)]

pub mod ends;
pub mod farthest;
