// Room that the parts of the solver share.
use crate::net::Links;

// One entry a node in each: in a search tree its rank, 0 where it is not marked; the edge over which it was marked; how much can come to it.
// The start of the solver has other uses for them.
#[derive(Drop)]
pub struct Tree<'a> {
    pub rank: &'a mut [usize],
    pub parent: &'a mut [usize],
    pub capacity: &'a mut [usize],
}

// Where a search looks for an edge, so that it need not look at every edge: the edges out of each node, those into it, and the nodes that it
// reached, in their order. All of it may hold anything and have any length.
#[derive(Drop)]
pub struct Hints<'a> {
    pub outs: Links<'a>,
    pub ins: Links<'a>,
    pub queue: &'a mut [usize],
}
