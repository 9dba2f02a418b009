// How far a point lies from the segment between two others: in x and y (document 02, §4), and in x, y and z (§14).
#![tactic(auto)]

pub mod coordinates;
pub mod plane;
pub mod segment;
pub mod space;
