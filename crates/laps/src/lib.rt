// The lap file: how it is read, checked and written.
#![tactic(auto)]

pub mod lap_file;
