// Thinning by Douglas and Peucker: which points of a list stand for the rest within a tolerance.
// The public calls check their arguments and refuse by document 01's table; the inner one serves the fit above.
#![tactic(auto)]

mod form;
pub mod simplify;
mod track;
mod tracks;
