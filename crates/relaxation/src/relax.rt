// Relaxation: rows rise, from 0, until every edge is kept and every used edge is tight. They are then the lowest such rows.
//
// `Holder` stays a clause: there are rows in it, and a fact of a type is a proposition with one proof.
ghost use Rattle.std.specs.Prelude.{◌≡◌, [], ◌+◌, ◌≤◌, ◌<◌, length};
ghost use Rattle.relaxation.specs.Certificate.{Relaxed};
ghost use Rattle.buffers.specs.Written.{word_limit};
ghost use Rattle.relaxation.specs.Limits.{row_limit};
ghost use Rattle.relaxation.specs.Network.{Shaped};
ghost use Rattle.relaxation.specs.Relax.{Holder, Sums, TailIs, MovedIs, Eases, Heights, Swept};

use crate::net::Arcs;
use buffers::copy_all;

// Where the tail of an edge goes that is in row lo, with gap g below the head in row hi and flow x.
fn lift_tail(lo: usize, g: usize, hi: usize, x: usize) -> usize
    requires { lo + g < word_limit }
    ensures { TailIs lo g hi x result }
{
    if x == 0 || hi <= lo + g {
        return lo;
    }
    hi - g
}

// Whether one of two rows changed, told without a branch.
fn moved_any(lo: usize, low: usize, hi: usize, high: usize) -> bool
    ensures { MovedIs lo low hi high result }
{
    (low != lo) | (high != hi)
}

// The end of edge a lifted that stands too low; whether one did. Both ends are written always, so that no branch depends on the rows.
fn relax_edge(arcs: &Arcs<'_>, flow: &[usize], y: &mut [usize], a: usize) -> bool
    requires a_in_bounds { a < length arcs.now.from.now }
    requires n_in_bounds { arcs.now.n ≤ length y.old }
    requires flow_len { length flow.now ≡ length arcs.now.from.now }
    requires sums { Sums arcs.now.from.now arcs.now.gap.now y.old }
    ensures { Eases arcs.now.from.now arcs.now.to.now arcs.now.gap.now flow.now y.old a y.new result }
{
    let f = arcs.from[a];
    let t = arcs.to[a];
    let g = arcs.gap[a];
    let lo = y[f];
    let hi = y[t];
    let low = lift_tail(lo, g, hi, flow[a]);
    let high = hi.max(lo + g);
    y[f] = low;
    y[t] = high;
    moved_any(lo, low, hi, high)
}

// One turn over all edges; whether one was not held.
fn sweep_edges(arcs: &Arcs<'_>, flow: &[usize], y: &mut [usize]) -> bool
    requires flow_len { length flow.now ≡ length arcs.now.from.now }
    requires n_in_bounds { arcs.now.n ≤ length y.old }
    requires holder { Holder arcs.now.from.now arcs.now.to.now arcs.now.gap.now flow.now arcs.now.n row_limit }
    requires heights { Heights arcs.now.from.now arcs.now.to.now arcs.now.gap.now flow.now arcs.now.n y.old }
    ensures { Swept arcs.now.from.now arcs.now.to.now arcs.now.gap.now flow.now arcs.now.n y.old y.new result }
{
    // By index, since a zip of four slices tests four ends at each edge; and counted, since a flag joined by `|` took a quarter longer.
    let mut lifted = 0;
    for a in 0..arcs.from.len() {
        lifted += relax_edge(arcs, flow, y, a) as usize;
    }
    lifted > 0
}

// The lowest rows that keep the edges and are tight where the flow is, in the first n entries of y, from heights on. Some such rows must
// exist: they stand above all that this reaches, so it ends.
pub fn lift_rows(arcs: &Arcs<'_>, flow: &[usize], y: &mut [usize])
    requires flow_len { length flow.now ≡ length arcs.now.from.now }
    requires n_in_bounds { arcs.now.n ≤ length y.old }
    requires holder { Holder arcs.now.from.now arcs.now.to.now arcs.now.gap.now flow.now arcs.now.n row_limit }
    requires heights { Heights arcs.now.from.now arcs.now.to.now arcs.now.gap.now flow.now arcs.now.n y.old }
    ensures { Relaxed arcs.now.from.now arcs.now.to.now arcs.now.gap.now flow.now arcs.now.n y.old y.new }
{
    while sweep_edges(arcs, flow, y) {}
}

// The same from 0 on. What it shares with `relax_above` is `lift_rows`: the two begin at other rows.
pub fn relax_edges(arcs: &Arcs<'_>, flow: &[usize], y: &mut [usize])
    requires flow_len { length flow.now ≡ length arcs.now.from.now }
    requires n_in_bounds { arcs.now.n ≤ length y.old }
    requires holder { Holder arcs.now.from.now arcs.now.to.now arcs.now.gap.now flow.now arcs.now.n row_limit }
    ensures { Relaxed arcs.now.from.now arcs.now.to.now arcs.now.gap.now flow.now arcs.now.n y.old y.new }
{
    y[..arcs.n].fill(0);
    lift_rows(arcs, flow, y);
}

// The same from rows on that relaxation without any flow gave: a flow only asks for more.
pub fn relax_above(arcs: &Arcs<'_>, flow: &[usize], y: &mut [usize], lowest: &[usize])
    requires flow_len { length flow.now ≡ length arcs.now.from.now }
    requires n_in_bounds { arcs.now.n ≤ length y.old }
    requires n_in_bounds_2 { arcs.now.n ≤ length lowest.now }
    requires holder { Holder arcs.now.from.now arcs.now.to.now arcs.now.gap.now flow.now arcs.now.n row_limit }
    requires heights { Heights arcs.now.from.now arcs.now.to.now arcs.now.gap.now [] arcs.now.n lowest.now }
    ensures { Relaxed arcs.now.from.now arcs.now.to.now arcs.now.gap.now flow.now arcs.now.n y.old y.new }
{
    copy_all(&lowest[..arcs.n], &mut y[..arcs.n]);
    lift_rows(arcs, flow, y);
}
