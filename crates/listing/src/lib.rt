// The rows of a course's listing: for each command that its fit writes, the kind and the steps of the thinned chain that it covers.
#![tactic(auto)]

pub mod listing;
