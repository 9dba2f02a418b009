// Points, curves and commands; how they are lent; which numbers are in document 01's domain.
#![tactic(auto)]

pub mod constants;
pub mod domain;
pub mod lent;
pub mod lists;
pub mod point;
pub mod refusal;
pub mod types;
