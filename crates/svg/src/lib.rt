// Courses drawn as SVG path data, read into a lap file.
#![tactic(auto)]

pub mod reading;
pub mod tally;
