// The listing of a recorded file.
#![tactic(auto)]

pub mod lap_rows;
