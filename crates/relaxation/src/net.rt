// The edges of a network as slices, one a field, and lists of them by node. How long rows and a flow are stays a clause of each function:
// both are written between the calls, so that they stand in no struct with the edges.
ghost use Rattle.relaxation.specs.Network.{Shaped, Network};

// Edges and the number of nodes, in flat slices as document 01 asks of the row finder: edge a goes from node `from[a]` to node `to[a]` and
// asks for `gap[a]` rows between them.
#[derive(Clone, Copy)]
pub struct Arcs<'a> {
    pub from: &'a [usize],
    pub to: &'a [usize],
    pub gap: &'a [usize],
    pub n: usize,
    ghost shaped: { Shaped from.now to.now gap.now n },
}

// Which end of a node's edges is sought: the heads of those out of it, or the tails of those into it.
#[derive(Clone, Copy, Debug, PartialEq, Eq)]
pub enum Side {
    Heads,
    Tails,
}

// Edges, and what each row of their length costs: all that the solver asks of a network holds of them.
#[derive(Clone, Copy)]
pub struct Net<'a> {
    pub arcs: Arcs<'a>,
    pub weight: &'a [usize],
    ghost network: { Network arcs.from.now arcs.to.now arcs.gap.now weight.now arcs.n },
}

// The edges of each node in a linked list: `head[v]` is the first link of node v, `next[a]` the link after edge a.
#[derive(Drop)]
pub struct Links<'a> {
    pub head: &'a mut [usize],
    pub next: &'a mut [usize],
}
