// What a text of SVG path data is made of.
#![tactic(auto)]

pub mod letters;
