// The start of the solver: rows near the best ones, the edges taken in at them, and supply and demand brought together as far as one sweep
// over a forest of tight edges does it. Where to begin is free, so almost all of it is a hint: rows are looked at before they are used, and
// an edge before anything moves over it.
#![tactic(auto)]

pub mod begin;
mod rows;
