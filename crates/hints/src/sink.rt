// Rows nearer to the best ones, before any flow: a node with more weight out of it than into it goes as far as its out-edges let it. What is
// proposed here is looked at afterwards, so nothing is promised of the rows.
ghost use Rattle.std.specs.Prelude.{◌≡◌, ◌≤◌, length, drop};

use relaxation::arcs::next_link;
use relaxation::net::{Arcs, Net};

// A number from it on stands for one below 0: sums go round the end of a word, in room that is lent as numbers.
const BELOW_ZERO: usize = 9223372036854775808;

// w put on entry v, round the end of a word.
fn weigh_end(pull: &mut [usize], v: usize, w: usize) {
    if v < pull.len() {
        pull[v] = pull[v].wrapping_add(w);
    }
}

// What the edges out of each node weigh, less what those into it weigh.
fn weigh_nodes(net: &Net<'_>, pull: &mut [usize]) {
    pull.fill(0);
    for ((&f, &t), &w) in net.arcs.from.iter().zip(net.arcs.to).zip(net.weight) {
        weigh_end(pull, f, w);
        weigh_end(pull, t, w.wrapping_neg());
    }
}

// The row up to which edge a lets its tail go.
fn edge_room(arcs: &Arcs<'_>, y: &[usize], a: usize) -> usize
    requires { arcs.now.n ≤ length y.now }
{
    if a >= arcs.to.len() {
        return 0;
    }
    y[arcs.to[a]].wrapping_sub(arcs.gap[a])
}

// The row up to which the edges of one list let their tail go; the last of all where there are none. A list is walked by its links.
fn list_room(arcs: &Arcs<'_>, y: &[usize], next: &[usize], first: usize) -> usize
    requires { arcs.now.n ≤ length y.now }
{
    let mut k = first;
    let mut row = usize::MAX;
    while k > 0 {
        row = row.min(edge_room(arcs, y, k - 1));
        k = next_link(next, k - 1);
    }
    row
}

// One node moved, in the first n entries of y.
fn sink_node(
    arcs: &Arcs<'_>,
    y: &mut [usize],
    pull: &[usize],
    out_head: &[usize],
    out_next: &[usize],
    v: usize,
)
    requires { arcs.now.n ≤ length y.old }
    ensures { drop arcs.now.n y.new ≡ drop arcs.now.n y.old }
{
    if v >= arcs.n {
        return;
    }
    let more = pull.get(v).copied().unwrap_or(0);
    if more == 0 || more >= BELOW_ZERO {
        return;
    }
    let first = out_head.get(v).copied().unwrap_or(0);
    y[v] = list_room(arcs, y, out_next, first);
}

// The nodes moved, in their order. `pull` is scratch.
pub fn sink_nodes(
    net: &Net<'_>,
    y: &mut [usize],
    pull: &mut [usize],
    out_head: &[usize],
    out_next: &[usize],
    order: &[usize],
)
    requires { net.now.arcs.n ≤ length y.old }
    ensures { drop net.now.arcs.n y.new ≡ drop net.now.arcs.n y.old }
{
    weigh_nodes(net, pull);
    for &v in order {
        sink_node(&net.arcs, y, pull, out_head, out_next, v);
    }
}
