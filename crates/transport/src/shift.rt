// Handing supply and demand over one edge: no matter which edge, the flow stays balanced with the weights but for supply and demand.
//
// What the flow and the stock are stays a clause: each call changes them. So does the bound of the weights, which come beside the edges.
ghost use Rattle.std.specs.Prelude.{◌≡◌, ◌+◌, ◌≤◌, ◌<◌, length};
ghost use Rattle.graph.specs.Rows.{at};
ghost use Rattle.transport.specs.Flow.{Flows};
ghost use Rattle.buffers.specs.Written.{word_limit};
ghost use Rattle.relaxation.specs.Limits.{weight_limit};
ghost use Rattle.buffers.specs.Lists.{sum};
ghost use Rattle.transport.specs.Shift.{shifted, Cancels, CarriesOn, CarriesBack};
ghost use Rattle.transport.specs.Stocks.{StockKept};

use crate::rows::Rows;
use crate::stock::Stock;

// No flow grows past it while supply and demand are handed on.
const FLOW_LIMIT: usize = 9223372036854775808;

// d taken off entry u and put on entry w.
fn shift_at(xs: &mut [usize], u: usize, w: usize, d: usize)
    requires u_in_bounds { u < length xs.old }
    requires w_in_bounds { w < length xs.old }
    requires d_bound { d ≤ at xs.old u }
    requires xs_bound { sum xs.old < weight_limit }
    ensures { xs.new ≡ shifted xs.old u w d }
{
    xs[u] -= d;
    xs[w] += d;
}

// All of entry u moved to entry w, over edge a: its flow grows.
fn carry_on(flow: &mut [usize], xs: &mut [usize], a: usize, u: usize, w: usize)
    requires a_in_bounds { a < length flow.old }
    requires u_in_bounds { u < length xs.old }
    requires w_in_bounds { w < length xs.old }
    requires xs_bound { sum xs.old < weight_limit }
    requires xs_bound_2 { at flow.old a + sum xs.old < word_limit }
    ensures { CarriesOn flow.old xs.old a u w flow.new xs.new }
{
    let d = xs[u];
    let x = flow[a] + d;
    if x > FLOW_LIMIT {
        return;
    }
    flow[a] = x;
    shift_at(xs, u, w, d);
}

// As much of entry u as edge a has flow, moved to entry w: the flow falls.
fn carry_back(flow: &mut [usize], xs: &mut [usize], a: usize, u: usize, w: usize)
    requires a_in_bounds { a < length flow.old }
    requires u_in_bounds { u < length xs.old }
    requires w_in_bounds { w < length xs.old }
    requires xs_bound { sum xs.old < weight_limit }
    ensures { CarriesBack flow.old xs.old a u w flow.new xs.new }
{
    let d = xs[u].min(flow[a]);
    flow[a] -= d;
    shift_at(xs, u, w, d);
}

// What node v has both to send and to get, taken off both.
fn cancel_at(stock: &mut Stock<'_>, v: usize)
    requires v_in_bounds { v < length stock.old.supply.now }
    requires v_in_bounds_2 { v < length stock.old.demand.now }
    ensures cancels { Cancels stock.old.supply.now stock.old.demand.now v stock.new.supply.now stock.new.demand.now }
    ensures stock { StockKept stock.old stock.new }
{
    let d = stock.supply[v].min(stock.demand[v]);
    stock.supply[v] -= d;
    stock.demand[v] -= d;
}

// Supply and demand of node v handed over edge a, where it is tight, to its other end.
fn hand_over(
    rows: &Rows<'_>,
    weight: &[usize],
    flow: &mut [usize],
    stock: &mut Stock<'_>,
    v: usize,
    a: usize,
)
    requires weight_bound { sum weight.now < weight_limit }
    requires flows { Flows rows.now.arcs.from.now rows.now.arcs.to.now rows.now.arcs.gap.now weight.now rows.now.arcs.n rows.now.y.now flow.old stock.old.supply.now stock.old.demand.now }
    requires a_in_bounds { a < length rows.now.arcs.from.now }
    ensures flows { Flows rows.now.arcs.from.now rows.now.arcs.to.now rows.now.arcs.gap.now weight.now rows.now.arcs.n rows.now.y.now flow.new stock.new.supply.now stock.new.demand.now }
    ensures stock { StockKept stock.old stock.new }
{
    if !rows.is_tight(a) {
        return;
    }
    let f = rows.arcs.from[a];
    let t = rows.arcs.to[a];
    if f == v {
        carry_on(flow, stock.supply, a, f, t);
        carry_back(flow, stock.demand, a, f, t);
        return;
    }
    carry_back(flow, stock.supply, a, t, f);
    carry_on(flow, stock.demand, a, t, f);
}

// Node v: its supply and demand cancelled, and what is left handed over its parent edge.
fn move_up(
    rows: &Rows<'_>,
    weight: &[usize],
    flow: &mut [usize],
    stock: &mut Stock<'_>,
    parent: &[usize],
    v: usize,
)
    requires weight_bound { sum weight.now < weight_limit }
    requires flows { Flows rows.now.arcs.from.now rows.now.arcs.to.now rows.now.arcs.gap.now weight.now rows.now.arcs.n rows.now.y.now flow.old stock.old.supply.now stock.old.demand.now }
    requires parent_len { length parent.now ≡ rows.now.arcs.n }
    ensures flows { Flows rows.now.arcs.from.now rows.now.arcs.to.now rows.now.arcs.gap.now weight.now rows.now.arcs.n rows.now.y.now flow.new stock.new.supply.now stock.new.demand.now }
    ensures stock { StockKept stock.old stock.new }
{
    if v >= rows.arcs.n {
        return;
    }
    cancel_at(stock, v);
    let a = parent[v];
    if a >= rows.arcs.from.len() {
        return;
    }
    hand_over(rows, weight, flow, stock, v, a);
}

// The nodes of the queue, the last one first: each hands on to its parent what it has.
pub fn sweep_forest(
    rows: &Rows<'_>,
    weight: &[usize],
    flow: &mut [usize],
    stock: &mut Stock<'_>,
    parent: &[usize],
    queue: &[usize],
)
    requires weight_bound { sum weight.now < weight_limit }
    requires flows { Flows rows.now.arcs.from.now rows.now.arcs.to.now rows.now.arcs.gap.now weight.now rows.now.arcs.n rows.now.y.now flow.old stock.old.supply.now stock.old.demand.now }
    requires parent_len { length parent.now ≡ rows.now.arcs.n }
    ensures flows { Flows rows.now.arcs.from.now rows.now.arcs.to.now rows.now.arcs.gap.now weight.now rows.now.arcs.n rows.now.y.now flow.new stock.new.supply.now stock.new.demand.now }
    ensures stock { StockKept stock.old stock.new }
{
    for &v in queue.iter().rev() {
        move_up(rows, weight, flow, stock, parent, v);
    }
}
