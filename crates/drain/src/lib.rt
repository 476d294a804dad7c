// Draining: what each node has to send is sent to nodes that have a demand.
#![tactic(auto)]

ghost use Rattle.std.specs.Prelude.{◌≡◌, ◌<◌, length};
ghost use Rattle.transport.specs.Flow.{Flows};
ghost use Rattle.relaxation.specs.Low.{RowsLow};
ghost use Rattle.drain.specs.Drain.{Sendable, Sent, Drained, Picks, NextSupply, DrainedAll};
ghost use Rattle.relaxation.specs.Limits.{calm_limit};
ghost use Rattle.relaxation.specs.Network.{Lengths};
ghost use Rattle.relaxation.specs.Loans.{TreeKept, HintsKept};
ghost use Rattle.transport.specs.Stocks.{StockKept};

use augment::push::push_flow;
use augment::tree::{grow_tree, plant_root};
use relaxation::low::lower_rows;
use relaxation::net::Net;
use relaxation::scratch::{Hints, Tree};
use transport::stock::Stock;

// As much as can come to node t and t wants, sent there from node s over the tree; what s has still to send.
// Rows and flow are parameters of their own, since of a slice in a struct the caller knows only what a clause says.
fn send_flow(
    net: &Net<'_>,
    y: &mut [usize],
    flow: &mut [usize],
    tree: &Tree<'_>,
    stock: &mut Stock<'_>,
    s: usize,
    t: usize,
) -> usize
    requires s_lt_n { s < net.now.arcs.n }
    requires sendable { Sendable net.now.arcs.from.now net.now.arcs.to.now net.now.arcs.gap.now net.now.weight.now net.now.arcs.n s t y.old flow.old tree.now.rank.now tree.now.parent.now tree.now.capacity.now stock.old.supply.now stock.old.demand.now }
    ensures sent { Sent net.now.arcs.from.now net.now.arcs.to.now net.now.arcs.gap.now net.now.weight.now net.now.arcs.n s y.old stock.old.supply.now y.new flow.new stock.new.supply.now stock.new.demand.now result }
    ensures stock { StockKept stock.old stock.new }
{
    let d = tree.capacity[t].min(stock.demand[t]);
    push_flow(
        &net.arcs,
        y,
        flow,
        tree.rank,
        tree.parent,
        tree.capacity,
        s,
        t,
        d,
    );
    let left = stock.supply[s] - d;
    stock.supply[s] = left;
    stock.demand[t] -= d;
    lower_rows(&net.arcs, flow, y);
    left
}

// What node s has to send, sent: a tree from s to a node with demand, and a push along it, until s has no supply.
// Rows and flow are parameters of their own here too.
pub fn drain_node(
    net: &Net<'_>,
    y: &mut [usize],
    flow: &mut [usize],
    tree: &mut Tree<'_>,
    stock: &mut Stock<'_>,
    hints: &mut Hints<'_>,
    s: usize,
)
    requires lengths { Lengths net.now.arcs.n y.old tree.old.rank.now tree.old.parent.now tree.old.capacity.now }
    requires flows { Flows net.now.arcs.from.now net.now.arcs.to.now net.now.arcs.gap.now net.now.weight.now net.now.arcs.n y.old flow.old stock.old.supply.now stock.old.demand.now }
    requires rows_low { RowsLow net.now.arcs.n calm_limit y.old }
    requires s_lt_n { s < net.now.arcs.n }
    ensures drained { Drained net.now.arcs.from.now net.now.arcs.to.now net.now.arcs.gap.now net.now.weight.now net.now.arcs.n s y.old stock.old.supply.now y.new flow.new stock.new.supply.now stock.new.demand.now tree.new.rank.now tree.new.parent.now tree.new.capacity.now }
    ensures tree { TreeKept tree.old tree.new }
    ensures stock { StockKept stock.old stock.new }
    ensures hints { HintsKept hints.old hints.new }
{
    let mut amount = stock.supply[s];
    while amount > 0 {
        plant_root(tree, net.arcs.n, s, amount);
        // Lent on as `&mut`: of a slice that a struct behind a `&mut` lends shared the proof no longer knows what it holds.
        let supply = &mut *stock.supply;
        let demand = &mut *stock.demand;
        let t = grow_tree(&net.arcs, y, flow, tree, supply, demand, hints, s);
        amount = send_flow(net, y, flow, tree, stock, s, t);
    }
}

// The higher one of the node found so far and of v, which has an amount to send.
fn pick_node(y: &[usize], best: Option<usize>, v: usize, amount: usize) -> Option<usize>
    ensures { Picks best v amount result }
{
    if amount == 0 {
        return best;
    }
    if let Some(u) = best {
        if y.get(u) >= y.get(v) {
            return best;
        }
    }
    Some(v)
}

// The highest node that has something to send.
fn find_supply(y: &[usize], stock: &Stock<'_>) -> Option<usize>
    ensures { NextSupply (length stock.now.supply.now) stock.now.supply.now result }
{
    let mut best = None;
    for (v, &amount) in stock.supply.iter().enumerate() {
        best = pick_node(y, best, v, amount);
    }
    best
}

// All that the nodes have to send, sent, the highest node first.
pub fn drain_nodes(
    net: &Net<'_>,
    y: &mut [usize],
    flow: &mut [usize],
    tree: &mut Tree<'_>,
    stock: &mut Stock<'_>,
    hints: &mut Hints<'_>,
)
    requires lengths { Lengths net.now.arcs.n y.old tree.old.rank.now tree.old.parent.now tree.old.capacity.now }
    requires flows { Flows net.now.arcs.from.now net.now.arcs.to.now net.now.arcs.gap.now net.now.weight.now net.now.arcs.n y.old flow.old stock.old.supply.now stock.old.demand.now }
    requires rows_low { RowsLow net.now.arcs.n calm_limit y.old }
    ensures drained { DrainedAll net.now.arcs.from.now net.now.arcs.to.now net.now.arcs.gap.now net.now.weight.now net.now.arcs.n y.old y.new flow.new stock.new.supply.now stock.new.demand.now }
    ensures tree { TreeKept tree.old tree.new }
    ensures stock { StockKept stock.old stock.new }
    ensures hints { HintsKept hints.old hints.new }
{
    while let Some(s) = find_supply(y, stock) {
        drain_node(net, y, flow, tree, stock, hints, s);
    }
}
