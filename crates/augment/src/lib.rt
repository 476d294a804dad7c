// Augmenting paths: a search tree from a node with supply to one with demand, and a push along it.
#![tactic(auto)]

mod exit;
mod open;
pub mod push;
mod residual;
pub mod tree;
