// The fits of a list of points as straights and bends: the public calls check their arguments and refuse by document 01's
// table. It is the third part of src/geo/algo/fitting.rs.
#![tactic(auto)]

pub mod fitting;
