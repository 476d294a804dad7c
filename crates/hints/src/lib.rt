// Hints for the start of the solver: the nodes by row, rows nearer to the best ones, and a forest of tight edges. Nothing is promised of what
// they propose but where it is written; it is looked at before it is used.
#![tactic(auto)]

pub mod forest;
pub mod order;
pub mod sink;
