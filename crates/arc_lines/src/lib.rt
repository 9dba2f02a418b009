// What is shown of the Lines that draw an Arc: their order and count, that each part met the test or the tenth halving,
// that the quarter turns are those which fall before the end, that every number is finite, and worked Arcs.
// It has no code of its own.
#![tactic(auto)]
