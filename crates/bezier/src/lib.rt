// Cubic Bezier curves: a point, the two parts, and the steps.
#![tactic(auto)]

pub mod bezier;
pub mod evaluation;
