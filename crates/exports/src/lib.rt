// The functions that C or Rust can call. Each calls the function that it exposes and has its whole contract, and its
// name starts with `pz_`, so that it meets no name of the program that links it.
//
// A point passes as its numbers, and a slice as a pointer and a length. A call that may be refused answers 0 or the
// refusal's number; what else it has to say goes to memory that the caller lends, which a refusal leaves as it was.
#![tactic(auto)]

pub mod arcs;
pub mod beziers;
pub mod circles;
pub mod counts;
pub mod courses;
pub mod drawings;
pub mod fits;
pub mod flattens;
pub mod lap_files;
pub mod lap_sessions;
pub mod live_thinner;
pub mod numbers;
pub mod points;
pub mod simplifies;
pub mod straights;
pub mod versions;
