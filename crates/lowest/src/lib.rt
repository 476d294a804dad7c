// The lowest rows. A caller may lend rows that it found by relaxing the edges itself: a look at every edge and every node tells whether
// they are the lowest ones, and only where they are not are they found here.
//
// `Narrow` stays a clause here, where edges come without the weights of a `Net`, and so does the length of the marks, which are scratch.
#![tactic(auto)]

ghost use Rattle.std.specs.Prelude.{◌≡◌, ℕ, true, false, ◌+◌, ◌≤◌, ◌<◌, length, replicate};
ghost use Rattle.graph.specs.Rows.{at};
ghost use Rattle.relaxation.specs.Certificate.{Relaxed};
ghost use Rattle.buffers.specs.Written.{word_limit};
ghost use Rattle.relaxation.specs.Limits.{row_limit};
ghost use Rattle.relaxation.specs.Network.{Narrow};
ghost use Rattle.relaxation.specs.Relax.{Holder, EdgesKept, Sums};
ghost use Rattle.lowest.specs.Lowest.{PropIs, Props, Propped, RowsLowest};

use relaxation::low::find_high;
use relaxation::net::Arcs;
use relaxation::relax::relax_edges;

// Whether the rows do not keep edge a.
fn edge_short(arcs: &Arcs<'_>, y: &[usize], a: usize) -> bool
    requires a_in_bounds { a < length arcs.now.from.now }
    requires n_in_bounds { arcs.now.n ≤ length y.now }
    ensures { result ≡ false → at y.now (at arcs.now.from.now a) + at arcs.now.gap.now a ≤ at y.now (at arcs.now.to.now a) }
{
    let lo = y[arcs.from[a]];
    let hi = y[arcs.to[a]];
    let g = arcs.gap[a];
    hi < g || hi - g < lo
}

// Whether the rows do not keep some edge.
pub fn find_short(arcs: &Arcs<'_>, y: &[usize]) -> bool
    requires { arcs.now.n ≤ length y.now }
    ensures { result ≡ false → EdgesKept arcs.now.from.now arcs.now.to.now arcs.now.gap.now y.now }
{
    (0..arcs.from.len()).any(|a| edge_short(arcs, y, a))
}

// Whether an edge with a gap g above 0 between row lo and row hi is tight: its tail holds its head up.
fn prop_of(lo: usize, g: usize, hi: usize) -> bool
    requires { lo + g < word_limit }
    ensures { PropIs lo g hi result }
{
    g > 0 && hi == lo + g
}

// The head of edge a marked where the edge holds it up. Its mark is written always, so that no branch depends on the rows.
fn prop_edge(arcs: &Arcs<'_>, y: &[usize], mark: &mut [usize], a: usize)
    requires a_in_bounds { a < length arcs.now.from.now }
    requires n_in_bounds { arcs.now.n ≤ length y.now }
    requires mark_len { length mark.old ≡ arcs.now.n }
    requires sums { Sums arcs.now.from.now arcs.now.gap.now y.now }
    ensures { Props arcs.now.from.now arcs.now.to.now arcs.now.gap.now y.now a mark.old mark.new }
{
    let t = arcs.to[a];
    let told = prop_of(y[arcs.from[a]], arcs.gap[a], y[t]);
    mark[t] = mark[t].max(told as usize);
}

// Every node marked that an edge holds up.
fn prop_nodes(arcs: &Arcs<'_>, y: &[usize], mark: &mut [usize])
    requires n_in_bounds { arcs.now.n ≤ length y.now }
    requires mark_len { length mark.old ≡ arcs.now.n }
    requires sums { Sums arcs.now.from.now arcs.now.gap.now y.now }
    ensures { Propped arcs.now.from.now arcs.now.to.now arcs.now.gap.now arcs.now.n y.now mark.new }
{
    mark.fill(0);
    // By index, since a zip of three slices tests three ends at each edge.
    for a in 0..arcs.from.len() {
        prop_edge(arcs, y, mark, a);
    }
}

// Whether a row is above 0 and its node is not marked. The marks are numbers, since they lie in room that is lent as numbers.
fn find_loose(y: &[usize], mark: &[usize]) -> bool
    requires { length mark.now ≤ length y.now }
    ensures { result ≡ false → (v : ℕ) → v < length mark.now → 0 < at y.now v → 0 < at mark.now v }
{
    y.iter().zip(mark).any(|(&row, &m)| m == 0 && row > 0)
}

// Whether the rows are found to be the lowest ones. The marks are scratch.
fn judge_rows(arcs: &Arcs<'_>, y: &[usize], mark: &mut [usize]) -> bool
    requires narrow { Narrow arcs.now.gap.now arcs.now.n }
    requires n_in_bounds { arcs.now.n ≤ length y.now }
    requires mark_len { length mark.old ≡ arcs.now.n }
    ensures { result ≡ true → RowsLowest arcs.now.from.now arcs.now.to.now arcs.now.gap.now arcs.now.n y.now }
{
    if find_high(&y[..arcs.n]) || find_short(arcs, y) {
        return false;
    }
    prop_nodes(arcs, y, mark);
    !find_loose(y, mark)
}

// The lowest rows, in the first n entries of y. No flow is loaded yet, and the marks are scratch.
pub fn lowest_rows(arcs: &Arcs<'_>, flow: &[usize], y: &mut [usize], mark: &mut [usize])
    requires narrow { Narrow arcs.now.gap.now arcs.now.n }
    requires n_in_bounds { arcs.now.n ≤ length y.old }
    requires holder { Holder arcs.now.from.now arcs.now.to.now arcs.now.gap.now flow.now arcs.now.n row_limit }
    requires flow_value { flow.now ≡ replicate (length arcs.now.from.now) 0 }
    requires mark_len { length mark.old ≡ arcs.now.n }
    ensures { Relaxed arcs.now.from.now arcs.now.to.now arcs.now.gap.now flow.now arcs.now.n y.old y.new }
{
    if !judge_rows(arcs, y, mark) {
        relax_edges(arcs, flow, y);
    }
}
