// Pushing over the parent edges of the search tree.
ghost use Rattle.std.specs.Prelude.{◌≡◌, ◌+◌, ◌≤◌, ◌<◌, length};
ghost use Rattle.graph.specs.Rows.{at};
ghost use Rattle.buffers.specs.Written.{word_limit};
ghost use Rattle.augment.specs.Push.{Steps, Pushable, Pushed};

use relaxation::net::Arcs;

// A step of d over the parent edge of cur.
pub fn step_back(
    from: &[usize],
    to: &[usize],
    flow: &mut [usize],
    parent: &[usize],
    cur: usize,
    d: usize,
) -> usize
    requires cur_in_bounds { cur < length parent.now }
    requires cur_in_bounds_2 { at parent.now cur < length from.now }
    requires to_len { length to.now ≡ length from.now }
    requires flow_len { length flow.old ≡ length from.now }
    requires d_bound { at flow.old (at parent.now cur) + d < word_limit }
    requires d_bound_2 { (at to.now (at parent.now cur) ≡ cur → ⊥) → d ≤ at flow.old (at parent.now cur) }
    ensures { Steps from.now to.now flow.old parent.now cur d flow.new result }
{
    let i = parent[cur];
    if to[i] == cur {
        flow[i] += d;
        return from[i];
    }
    flow[i] -= d;
    to[i]
}

// d pushed over the parent edges, from start back to s.
// The slices are parameters of their own: all but the flow are only read, and a struct that lends them to be written would ask for more.
pub fn push_flow(
    arcs: &Arcs<'_>,
    y: &[usize],
    flow: &mut [usize],
    rank: &[usize],
    parent: &[usize],
    capacity: &[usize],
    s: usize,
    start: usize,
    d: usize,
)
    requires { Pushable arcs.now.from.now arcs.now.to.now arcs.now.gap.now flow.old arcs.now.n y.now rank.now parent.now capacity.now s start d }
    ensures { Pushed arcs.now.from.now arcs.now.to.now arcs.now.gap.now y.now d start s flow.old flow.new }
{
    let mut cur = start;
    while rank[cur] > 1 {
        cur = step_back(arcs.from, arcs.to, flow, parent, cur, d);
    }
}
