// Taking the edges in: a tight one carries its weight; the ends of any other have it to send and to get.
ghost use Rattle.std.specs.Prelude.{◌≡◌, ◌+◌, ◌≤◌, ◌<◌, length, replicate};
ghost use Rattle.graph.specs.Rows.{at};
ghost use Rattle.relaxation.specs.Certificate.{Held};
ghost use Rattle.transport.specs.Flow.{Flows};
ghost use Rattle.transport.specs.Load.{Loads};
ghost use Rattle.transport.specs.Stocks.{StockKept};
ghost use Rattle.buffers.specs.Written.{word_limit};
ghost use Rattle.relaxation.specs.Limits.{weight_limit};
ghost use Rattle.buffers.specs.Lists.{sum};

use crate::rows::Rows;
use crate::stock::Stock;

// Edge e taken in.
pub fn load_edge(
    rows: &Rows<'_>,
    weight: &[usize],
    flow: &mut [usize],
    stock: &mut Stock<'_>,
    e: usize,
)
    requires e_in_bounds { e < length rows.now.arcs.from.now }
    requires weight_len { length weight.now ≡ length rows.now.arcs.from.now }
    requires flow_len { length flow.old ≡ length rows.now.arcs.from.now }
    requires supply_len { length stock.old.supply.now ≡ rows.now.arcs.n }
    requires demand_len { length stock.old.demand.now ≡ rows.now.arcs.n }
    requires e_bound { at stock.old.supply.now (at rows.now.arcs.from.now e) + at weight.now e < word_limit }
    requires e_bound_2 { at stock.old.demand.now (at rows.now.arcs.to.now e) + at weight.now e < word_limit }
    ensures loads { Loads rows.now.arcs.from.now rows.now.arcs.to.now rows.now.arcs.gap.now weight.now rows.now.y.now flow.old stock.old.supply.now stock.old.demand.now e flow.new stock.new.supply.now stock.new.demand.now }
    ensures stock { StockKept stock.old stock.new }
{
    let w = weight[e];
    if rows.is_tight(e) {
        flow[e] = w;
        return;
    }
    stock.supply[rows.arcs.from[e]] += w;
    stock.demand[rows.arcs.to[e]] += w;
}

// All edges taken in. By number, since an edge is its number in five slices.
pub fn load_edges(rows: &Rows<'_>, weight: &[usize], flow: &mut [usize], stock: &mut Stock<'_>)
    requires weight_len { length weight.now ≡ length rows.now.arcs.from.now }
    requires weight_bound { sum weight.now < weight_limit }
    requires held { Held rows.now.arcs.from.now rows.now.arcs.to.now rows.now.arcs.gap.now flow.old (at rows.now.y.now) }
    requires flow_value { flow.old ≡ replicate (length rows.now.arcs.from.now) 0 }
    requires supply_value { stock.old.supply.now ≡ replicate rows.now.arcs.n 0 }
    requires demand_value { stock.old.demand.now ≡ replicate rows.now.arcs.n 0 }
    ensures flows { Flows rows.now.arcs.from.now rows.now.arcs.to.now rows.now.arcs.gap.now weight.now rows.now.arcs.n rows.now.y.now flow.new stock.new.supply.now stock.new.demand.now }
    ensures stock { StockKept stock.old stock.new }
{
    for e in 0..rows.arcs.from.len() {
        load_edge(rows, weight, flow, stock, e);
    }
}
