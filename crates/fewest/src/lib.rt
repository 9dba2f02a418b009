// The fewest straights: a polyline through recorded points with as few Lines as a budget of tests finds.
#![tactic(auto)]

pub mod fewest;
