// Courses: lists of commands, whose chains of points are thinned and fitted. It is the last part of src/geo/algo/fitting.rs.
#![tactic(auto)]

pub mod course;
