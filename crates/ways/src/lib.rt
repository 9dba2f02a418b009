// Ways by straights through the points of a list, and the search for the fewest in layers: definitions and laws, over any
// test of a pair. The only code is where a search stands.
#![tactic(auto)]

pub mod phase;
