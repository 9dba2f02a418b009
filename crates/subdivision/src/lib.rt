// Cubic Bezier curves halved until each part is flat.
#![tactic(auto)]

pub mod part;
pub mod subdivision;
