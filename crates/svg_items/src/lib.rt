// The items of path data, each read at a place of the text: numbers, points and commands.
#![tactic(auto)]

pub mod figures;
pub mod strokes;
