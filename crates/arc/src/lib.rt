// Circular arcs: the direction in which points go round a centre.
#![tactic(auto)]

pub mod arc;
