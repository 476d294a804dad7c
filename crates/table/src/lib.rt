// The parts of a table, read from its bytes: numbers by a rule for their forms, steps, and edges with their firmness; and what the reader
// gives. Each function that reads answers the value and the place behind it, or the first fault.
#![tactic(auto)]

pub mod edge;
pub mod limits;
pub mod number;
pub mod rule;
pub mod source;
pub mod step;
pub mod types;
