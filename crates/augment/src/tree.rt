// The search tree: marked nodes, from one that has something to send, over residual arcs. Where none leaves, the marked rows rise.
ghost use Rattle.std.specs.Prelude.{◌≡◌, List, ℕ, ◌+◌, ◌≤◌, ◌<◌, length};
ghost use Rattle.graph.specs.Rows.{at};
ghost use Rattle.transport.specs.Flow.{Flows};
ghost use Rattle.relaxation.specs.Low.{RowsLow};
ghost use Rattle.buffers.specs.Written.{word_limit};
ghost use Rattle.relaxation.specs.Limits.{calm_limit, peak_limit};
ghost use Rattle.relaxation.specs.Network.{Narrow, Lengths};
ghost use Rattle.relaxation.specs.Loans.{TreeKept, HintsKept};
ghost use Rattle.augment.specs.Search.{Fits, Marks, Raised, Planted, Grown};

use crate::exit::{Search, next_exit};
use relaxation::arcs::put_node;
use relaxation::net::Arcs;
use relaxation::scratch::{Hints, Tree};

// The far end of edge a marked.
pub fn mark_end(
    from: &[usize],
    to: &[usize],
    flow: &[usize],
    tree: &mut Tree<'_>,
    a: usize,
    count: usize,
) -> usize
    requires { Fits from.now to.now flow.now tree.old.rank.now tree.old.parent.now tree.old.capacity.now a }
    ensures marks { Marks from.now to.now flow.now tree.old.rank.now tree.old.parent.now tree.old.capacity.now a count tree.new.rank.now tree.new.parent.now tree.new.capacity.now result }
    ensures tree { TreeKept tree.old tree.new }
{
    let f = from[a];
    let t = to[a];
    if tree.rank[t] == 0 {
        tree.rank[t] = count;
        tree.parent[t] = a;
        tree.capacity[t] = tree.capacity[f];
        return t;
    }
    tree.rank[f] = count;
    tree.parent[f] = a;
    tree.capacity[f] = tree.capacity[t].min(flow[a]);
    f
}

// The marked ones of the first n entries of y raised by d.
// By index: of a loop over `iter_mut` beside another slice nothing is known of what it wrote; both slices go on behind the nodes.
pub fn raise_marked(y: &mut [usize], rank: &[usize], n: usize, d: usize)
    requires n_in_bounds { n ≤ length y.old }
    requires n_in_bounds_2 { n ≤ length rank.now }
    requires by_index { (v : ℕ) → v < n → at y.old v + d < word_limit }
    ensures { Raised n rank.now d y.old y.new }
{
    if d == 0 {
        return;
    }
    for (v, &r) in rank[..n].iter().enumerate() {
        if r > 0 {
            y[v] += d;
        }
    }
}

// Marks and raises, from s alone on, until a marked node wants something: that node.
// Rows and flow are parameters of their own, since of a slice in a struct the caller knows only what a clause says.
pub fn grow_tree(
    arcs: &Arcs<'_>,
    y: &mut [usize],
    flow: &[usize],
    tree: &mut Tree<'_>,
    supply: &[usize],
    demand: &[usize],
    hints: &mut Hints<'_>,
    s: usize,
) -> usize
    requires lengths { Lengths arcs.now.n y.old tree.old.rank.now tree.old.parent.now tree.old.capacity.now }
    requires narrow { Narrow arcs.now.gap.now arcs.now.n }
    requires flows { (weight : List ℕ) × ((length weight ≡ length arcs.now.from.now) × Flows arcs.now.from.now arcs.now.to.now arcs.now.gap.now weight arcs.now.n y.old flow.now supply.now demand.now) }
    requires rows_low { RowsLow arcs.now.n calm_limit y.old }
    requires s_lt_n { s < arcs.now.n }
    requires s_nonzero { 0 < at supply.now s }
    requires amount_nonzero { 0 < at tree.old.capacity.now s }
    requires planted { Planted arcs.now.n s (at tree.old.capacity.now s) tree.old.rank.now tree.old.capacity.now }
    ensures grown { Grown arcs.now.from.now arcs.now.to.now arcs.now.gap.now flow.now arcs.now.n s (at tree.old.capacity.now s) peak_limit demand.now y.old y.new tree.new.rank.now tree.new.parent.now tree.new.capacity.now result }
    ensures tree { TreeKept tree.old tree.new }
    ensures hints { HintsKept hints.old hints.new }
{
    let mut count = 2;
    let mut t = s;
    let mut search = Search::default();
    put_node(hints.queue, 0, s);
    while demand[t] == 0 {
        let marked = count - 1;
        search = next_exit(arcs, flow, y, tree, hints, marked, search);
        // Lent on as `&mut`: of a slice that a struct behind a `&mut` lends shared the proof no longer knows what it holds.
        let rank = &mut *tree.rank;
        raise_marked(y, rank, arcs.n, search.exit.slack);
        t = mark_end(arcs.from, arcs.to, flow, tree, search.exit.edge, count);
        put_node(hints.queue, marked, t);
        count += 1;
    }
    t
}

// Node s alone marked, with all of amount to send.
pub fn plant_root(tree: &mut Tree<'_>, n: usize, s: usize, amount: usize)
    requires rank_len { length tree.old.rank.now ≡ n }
    requires capacity_len { length tree.old.capacity.now ≡ n }
    requires s_lt_n { s < n }
    ensures planted { Planted n s amount tree.new.rank.now tree.new.capacity.now }
    ensures parent_same { tree.new.parent.now ≡ tree.old.parent.now }
    ensures tree { TreeKept tree.old tree.new }
{
    tree.rank.fill(0);
    tree.rank[s] = 1;
    tree.capacity[s] = amount;
}
