// Rows to start with: the lowest ones, then nodes sunk, and a look at every edge.
ghost use Rattle.std.specs.Prelude.{◌≡◌, ◌≤◌, length, replicate};
ghost use Rattle.relaxation.specs.Low.{Lowered};
ghost use Rattle.start.specs.Start.{RowsReady};
ghost use Rattle.relaxation.specs.Limits.{row_limit};
ghost use Rattle.relaxation.specs.Relax.{Holder};
ghost use Rattle.relaxation.specs.Loans.{TreeKept};

use buffers::copy_all;
use hints::order::order_nodes;
use hints::sink::sink_nodes;
use lowest::{find_short, lowest_rows};
use relaxation::low::find_high;
use relaxation::net::Net;
use relaxation::relax::relax_edges;
use relaxation::scratch::Tree;

// Rows that were proposed, kept where they keep every edge and are low, and relaxed again elsewhere. No flow is loaded yet.
fn accept_rows(net: &Net<'_>, flow: &[usize], y: &mut [usize])
    requires n_in_bounds { net.now.arcs.n ≤ length y.old }
    requires holder { Holder net.now.arcs.from.now net.now.arcs.to.now net.now.arcs.gap.now flow.now net.now.arcs.n row_limit }
    requires flow_value { flow.now ≡ replicate (length net.now.arcs.from.now) 0 }
    ensures { Lowered net.now.arcs.from.now net.now.arcs.to.now net.now.arcs.gap.now flow.now net.now.arcs.n y.old y.new }
{
    if find_high(&y[..net.arcs.n]) || find_short(&net.arcs, y) {
        relax_edges(&net.arcs, flow, y);
    }
}

// Rows to start with: the lowest ones, which are kept, and then nodes sunk. The nodes are left in `tree.capacity`, in their order.
pub fn start_rows(
    net: &Net<'_>,
    flow: &[usize],
    y: &mut [usize],
    tree: &mut Tree<'_>,
    out_head: &[usize],
    out_next: &[usize],
    lowest: &mut [usize],
)
    requires n_in_bounds { net.now.arcs.n ≤ length y.old }
    requires holder { Holder net.now.arcs.from.now net.now.arcs.to.now net.now.arcs.gap.now flow.now net.now.arcs.n row_limit }
    requires flow_value { flow.now ≡ replicate (length net.now.arcs.from.now) 0 }
    requires lowest_len { length lowest.old ≡ net.now.arcs.n }
    requires rank_len { length tree.old.rank.now ≡ net.now.arcs.n }
    ensures rows { RowsReady net.now.arcs.from.now net.now.arcs.to.now net.now.arcs.gap.now flow.now net.now.arcs.n y.old y.new lowest.new }
    ensures tree { TreeKept tree.old tree.new }
{
    let order = &mut *tree.capacity;
    lowest_rows(&net.arcs, flow, y, tree.rank);
    copy_all(&y[..net.arcs.n], lowest);
    order_nodes(y, tree.rank, tree.parent, order);
    sink_nodes(net, y, tree.rank, out_head, out_next, order);
    accept_rows(net, flow, y);
}
