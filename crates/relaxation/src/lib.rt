// Flat networks: edges as slices of numbers, lists of them by node, the lowest rows by relaxation, and what shows that rows are the best.
#![tactic(auto)]

pub mod arcs;
pub mod low;
pub mod net;
pub mod relax;
pub mod scratch;
