// The fit of a range into Lines and Arcs, one part after another, the ends of the parts behind waiting in an array. It is a
// part of src/geo/algo/fitting.rs.
#![tactic(auto)]

pub mod ranges;
