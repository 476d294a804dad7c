// Best rows of a network of edges with gaps and weights, and a flow that certifies them: a primal-dual method with supply and demand by node.
//
// `Bounded` stays a clause: there are rows in it, and a fact of a type is a proposition with one proof.
#![tactic(auto)]

ghost use Rattle.std.specs.Prelude.{◌*◌, ◌≤◌, ◌<◌, List, ℕ, length};
ghost use Rattle.relaxation.specs.Certificate.{Certified};
ghost use Rattle.relaxation.specs.Limits.{row_limit};
ghost use Rattle.relaxation.specs.Network.{Bounded, Buffers};
ghost use Rattle.network.specs.Scratch.{WorkKept};

use drain::drain_nodes;
use relaxation::net::{Links, Net};
use relaxation::relax::relax_above;
use relaxation::scratch::{Hints, Tree};
use start::begin::{ease_flow, start_flow};
use transport::rows::Rows;
use transport::stock::Stock;

// The scratch of the solver: what it holds at the end is free.
#[derive(Drop)]
pub struct Work<'a> {
    pub tree: Tree<'a>,
    pub stock: Stock<'a>,
    pub hints: Hints<'a>,
    pub lowest: &'a mut [usize],
}

// The best rows of the nodes, in the first entries of y, and a flow that certifies them. Some feasible rows must exist.
//
// What y has at entry is a hint, and its entries behind the nodes stay. Which of the flows that certify the rows comes is free.
pub fn solve(net: &Net<'_>, y: &mut [usize], flow: &mut [usize], work: &mut Work<'_>)
    requires bounded { Bounded net.now.arcs.from.now net.now.arcs.to.now net.now.arcs.gap.now net.now.arcs.n row_limit }
    requires buffers { Buffers (length net.now.arcs.from.now) net.now.arcs.n y.old flow.old work.old.tree.rank.now work.old.tree.parent.now work.old.tree.capacity.now work.old.stock.supply.now work.old.stock.demand.now work.old.lowest.now }
    ensures certified { Certified net.now.arcs.from.now net.now.arcs.to.now net.now.arcs.gap.now net.now.weight.now net.now.arcs.n y.old y.new flow.new }
    ensures work { WorkKept work.old work.new }
{
    work.hints.outs.link_edges(net.arcs.from);
    work.hints.ins.link_edges(net.arcs.to);
    // Each list as a loan of its own: through the struct they could not be lent beside the tree, the stock and the rows.
    let outs = &mut work.hints.outs;
    let out_head = &mut *outs.head;
    let out_next = &mut *outs.next;
    start_flow(
        net,
        y,
        flow,
        &mut work.tree,
        &mut work.stock,
        out_head,
        out_next,
        work.lowest,
    );
    ease_flow(
        &Rows { arcs: net.arcs, y },
        net.weight,
        flow,
        &mut work.tree,
        &mut work.stock,
        &mut work.hints,
    );
    drain_nodes(
        net,
        y,
        flow,
        &mut work.tree,
        &mut work.stock,
        &mut work.hints,
    );
    relax_above(&net.arcs, flow, y, work.lowest);
}

// The same in room of its own, for so many nodes and edges as arrays can have. The flow is not handed out. The arrays stand here one by one,
// so that it is a long function: what lends them on must own them, and there is no heap.
pub fn best_rows<const NODES: usize, const EDGES: usize>(net: &Net<'_>, y: &mut [usize])
    requires bounded { Bounded net.now.arcs.from.now net.now.arcs.to.now net.now.arcs.gap.now net.now.arcs.n row_limit }
    requires nodes_fit { NODES * 8 < 9223372036854775808 }
    requires edges_fit { EDGES * 8 < 9223372036854775808 }
    requires few_nodes { net.now.arcs.n ≤ NODES }
    requires few_edges { length net.now.arcs.from.now ≤ EDGES }
    requires n_in_bounds { net.now.arcs.n ≤ length y.old }
    ensures { (flow : List ℕ) × Certified net.now.arcs.from.now net.now.arcs.to.now net.now.arcs.gap.now net.now.weight.now net.now.arcs.n y.old y.new flow }
{
    let n = net.arcs.n;
    let mut flow = [0usize; EDGES];
    let mut rank = [0usize; NODES];
    let mut parent = [0usize; NODES];
    let mut capacity = [0usize; NODES];
    let mut supply = [0usize; NODES];
    let mut demand = [0usize; NODES];
    let mut out_head = [0usize; NODES];
    let mut out_next = [0usize; EDGES];
    let mut in_head = [0usize; NODES];
    let mut in_next = [0usize; EDGES];
    let mut queue = [0usize; NODES];
    let mut lowest = [0usize; NODES];
    let mut work = Work {
        tree: Tree {
            rank: &mut rank[..n],
            parent: &mut parent[..n],
            capacity: &mut capacity[..n],
        },
        stock: Stock {
            supply: &mut supply[..n],
            demand: &mut demand[..n],
        },
        hints: Hints {
            outs: Links {
                head: &mut out_head,
                next: &mut out_next,
            },
            ins: Links {
                head: &mut in_head,
                next: &mut in_next,
            },
            queue: &mut queue,
        },
        lowest: &mut lowest[..n],
    };
    solve(net, y, &mut flow[..net.arcs.from.len()], &mut work);
}
