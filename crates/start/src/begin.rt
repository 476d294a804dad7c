// The start of the solver: rows, a flow at them, and supply and demand brought nearer to one another.
ghost use Rattle.std.specs.Prelude.{◌≡◌, ◌≤◌, ◌<◌, length};
ghost use Rattle.transport.specs.Flow.{Flows};
ghost use Rattle.start.specs.Start.{Started};
ghost use Rattle.relaxation.specs.Limits.{weight_limit, row_limit};
ghost use Rattle.buffers.specs.Lists.{sum};
ghost use Rattle.relaxation.specs.Network.{Bounded};
ghost use Rattle.relaxation.specs.Loans.{TreeKept, HintsKept};
ghost use Rattle.transport.specs.Stocks.{StockKept};

use crate::rows::start_rows;
use hints::forest::grow_forest;
use relaxation::net::Net;
use relaxation::scratch::{Hints, Tree};
use transport::load::load_edges;
use transport::rows::Rows;
use transport::shift::sweep_forest;
use transport::stock::Stock;

// Rows to start with, and all edges taken in at them. Rows that are lent in y save the first relaxation where they are the lowest ones.
// The nodes are left in `tree.capacity`, in their order.
// Rows and flow are parameters of their own, since of a slice in a struct the caller knows only what a clause says.
pub fn start_flow(
    net: &Net<'_>,
    y: &mut [usize],
    flow: &mut [usize],
    tree: &mut Tree<'_>,
    stock: &mut Stock<'_>,
    out_head: &[usize],
    out_next: &[usize],
    lowest: &mut [usize],
)
    requires bounded { Bounded net.now.arcs.from.now net.now.arcs.to.now net.now.arcs.gap.now net.now.arcs.n row_limit }
    requires n_in_bounds { net.now.arcs.n ≤ length y.old }
    requires flow_len { length flow.old ≡ length net.now.arcs.from.now }
    requires supply_len { length stock.old.supply.now ≡ net.now.arcs.n }
    requires demand_len { length stock.old.demand.now ≡ net.now.arcs.n }
    requires lowest_len { length lowest.old ≡ net.now.arcs.n }
    requires rank_len { length tree.old.rank.now ≡ net.now.arcs.n }
    ensures started { Started net.now.arcs.from.now net.now.arcs.to.now net.now.arcs.gap.now net.now.weight.now net.now.arcs.n y.old y.new flow.new stock.new.supply.now stock.new.demand.now lowest.new }
    ensures tree { TreeKept tree.old tree.new }
    ensures stock { StockKept stock.old stock.new }
{
    flow.fill(0);
    stock.supply.fill(0);
    stock.demand.fill(0);
    start_rows(net, flow, y, tree, out_head, out_next, lowest);
    load_edges(&Rows { arcs: net.arcs, y }, net.weight, flow, stock);
}

// Supply and demand brought nearer to one another: one sweep over a forest of tight edges.
pub fn ease_flow(
    rows: &Rows<'_>,
    weight: &[usize],
    flow: &mut [usize],
    tree: &mut Tree<'_>,
    stock: &mut Stock<'_>,
    hints: &mut Hints<'_>,
)
    requires weight_bound { sum weight.now < weight_limit }
    requires flows { Flows rows.now.arcs.from.now rows.now.arcs.to.now rows.now.arcs.gap.now weight.now rows.now.arcs.n rows.now.y.now flow.old stock.old.supply.now stock.old.demand.now }
    requires parent_len { length tree.old.parent.now ≡ rows.now.arcs.n }
    ensures flows { Flows rows.now.arcs.from.now rows.now.arcs.to.now rows.now.arcs.gap.now weight.now rows.now.arcs.n rows.now.y.now flow.new stock.new.supply.now stock.new.demand.now }
    ensures tree { TreeKept tree.old tree.new }
    ensures order { tree.new.capacity.now ≡ tree.old.capacity.now }
    ensures stock { StockKept stock.old stock.new }
    ensures hints { HintsKept hints.old hints.new }
{
    let rank = &mut *tree.rank;
    let parent = &mut *tree.parent;
    let order = &mut *tree.capacity;
    let count = grow_forest(&rows.arcs, rows.y, hints, rank, parent, order);
    sweep_forest(rows, weight, flow, stock, parent, &hints.queue[..count]);
}
