// The cubic Bezier curve fitted to points.
#![tactic(auto)]

pub mod fit_cubic;
