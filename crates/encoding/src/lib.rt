// The parts of a table in their fewest bytes, put at the end of a page: numbers, steps, and edges in the edition that can tell them.
#![tactic(auto)]

pub mod edge;
pub mod number;
pub mod step;
