// The two arc trials of a range of points: how far the points lie off an arc, which way they go round its centre, and
// whether by less than a whole turn. It is the middle part of src/geo/algo/fitting.rs.
#![tactic(auto)]

pub mod trial;
