// One range of points: whether its Line passes, else its arc trials, and the command that it is written as. It is a part of
// src/geo/algo/fitting.rs.
#![tactic(auto)]

pub mod pieces;
