// What is shown of courses read from SVG path data; no code stands here.
#![tactic(auto)]
