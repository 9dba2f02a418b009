// The chains of a course: what each command adds to the one under way, and what is written of one that a command ends.
#![tactic(auto)]

pub mod chain;
