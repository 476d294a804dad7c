// A flow with supply and demand at the nodes: the edges taken in, and supply and demand moved over them.
#![tactic(auto)]

pub mod load;
pub mod rows;
pub mod shift;
pub mod stock;
