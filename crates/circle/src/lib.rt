// Circles and points: whether points lie on a line, the circle through three, the circle of least squares through many,
// and a centre moved to a chord's bisector. It is the first part of src/geo/algo/fitting.rs.
#![tactic(auto)]

pub mod circle;
