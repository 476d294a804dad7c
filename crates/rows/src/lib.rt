// Rows that are found for edges: with their total, and in a buffer that is lent.
#![tactic(auto)]

pub mod store;
pub mod total;
pub mod types;
