// How far points lie off the line between two of them, and off an arc: the two deviations of src/geo/algo/fitting.rs.
#![tactic(auto)]

pub mod deviations;
