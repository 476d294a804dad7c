// Relaxation: rows from 0 up that keep every edge, if they settle below a cap.
ghost use Rattle.std.specs.Prelude.{◌≡◌, ◌↔◌, true, ◌≤◌, ◌<◌, length, IsTrue};
ghost use Rattle.acyclic.specs.Scan.{Short, Rests};

use crate::sweep::find_from;
use relaxation::net::Arcs;

// Rows from 0 up, raised wherever an edge is short, until none is or a row would pass the cap. Whether they came to rest.
pub fn settle_rows(arcs: &Arcs<'_>, cap: usize, y: &mut [usize]) -> bool
    requires { arcs.now.n ≤ length y.old }
    ensures { result ≡ true → Rests arcs.now.from.now arcs.now.to.now arcs.now.gap.now cap y.new }
{
    y.fill(0);
    let mut start = 0;
    while let Some(i) = find_from(arcs.from.len(), start, |i| is_short(arcs, y, i)) {
        let tail = y[arcs.from[i]];
        if cap - tail < arcs.gap[i] {
            return false;
        }
        y[arcs.to[i]] = tail + arcs.gap[i];
        start = i;
    }
    true
}

// Whether edge i is shorter than its gap.
fn is_short(arcs: &Arcs<'_>, y: &[usize], i: usize) -> bool
    requires i_in_bounds { i < length arcs.now.from.now }
    requires n_in_bounds { arcs.now.n ≤ length y.now }
    ensures { IsTrue result ↔ Short arcs.now.from.now arcs.now.to.now arcs.now.gap.now y.now i }
{
    let tail = y[arcs.from[i]];
    let head = y[arcs.to[i]];
    head < tail || head - tail < arcs.gap[i]
}
