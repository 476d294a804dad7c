// An edge that leads out of the marked set with no slack, sought in the lists of the marked nodes.
//
// That a node is marked and an edge exists stays a clause: both are the arguments of that call.
ghost use Rattle.std.specs.Prelude.{◌≡◌, ◌+◌, ◌-◌, ◌≤◌, ◌<◌, IsTrue, max, min, length};
ghost use Rattle.graph.specs.Rows.{at};
ghost use Rattle.augment.specs.Search.{LeavesAt, OpenIs};

use crate::residual::Residual;
use relaxation::arcs::{next_link, read_link};
use relaxation::net::{Links, Side};

// 0 where an edge to a node of rank rt, from row lo with gap g to row hi, leads out of the marked set and has no slack. The two are told
// by one number, so that one branch depends on it.
fn head_miss(rt: usize, lo: usize, g: usize, hi: usize) -> usize
    requires { lo + g ≤ hi }
    ensures { result ≡ max rt (hi - lo - g) }
{
    rt.max(hi - lo - g)
}

// 0 where an edge with flow f, from a node of rank rf, leads backward out of the marked set. It is one number for the same reason.
fn tail_miss(rf: usize, f: usize) -> usize
    ensures { result ≡ max rf (1 - min f 1) }
{
    rf.max(1 - f.min(1))
}

// A place in the queue, and a link of that node's list; 0 where the list is to be read from its start.
#[derive(Clone, Copy, Debug, Default, PartialEq, Eq)]
pub struct Cursor {
    pub place: usize,
    pub link: usize,
}

impl Residual<'_, '_> {
    // Whether edge i leads out of the marked set from its tail v, with no slack.
    fn leaves_ahead(&self, v: usize, i: usize) -> bool
        requires v_lt_n { v < self.now.arcs.n }
        requires v_nonzero { 0 < at self.now.rank.now v }
        requires i_in_bounds { i < length self.now.arcs.from.now }
        ensures { IsTrue result → LeavesAt self.now.arcs.from.now self.now.arcs.to.now self.now.arcs.gap.now self.now.flow.now self.now.y.now self.now.rank.now i 0 }
    {
        if self.arcs.from[i] != v {
            return false;
        }
        let t = self.arcs.to[i];
        head_miss(self.rank[t], self.y[v], self.arcs.gap[i], self.y[t]) == 0
    }

    // Whether edge i leads backward out of the marked set from its head v.
    fn leaves_back(&self, v: usize, i: usize) -> bool
        requires v_lt_n { v < self.now.arcs.n }
        requires v_nonzero { 0 < at self.now.rank.now v }
        requires i_in_bounds { i < length self.now.arcs.from.now }
        ensures { IsTrue result → LeavesAt self.now.arcs.from.now self.now.arcs.to.now self.now.arcs.gap.now self.now.flow.now self.now.y.now self.now.rank.now i 0 }
    {
        if self.arcs.to[i] != v {
            return false;
        }
        tail_miss(self.rank[self.arcs.from[i]], self.flow[i]) == 0
    }

    // The same of one of the two, by the side that is sought. There are two sides, so this is a match and takes no closure.
    fn is_open(&self, v: usize, i: usize, side: Side) -> bool
        requires v_lt_n { v < self.now.arcs.n }
        requires v_nonzero { 0 < at self.now.rank.now v }
        requires i_in_bounds { i < length self.now.arcs.from.now }
        ensures { IsTrue result → LeavesAt self.now.arcs.from.now self.now.arcs.to.now self.now.arcs.gap.now self.now.flow.now self.now.y.now self.now.rank.now i 0 }
    {
        match side {
            Side::Heads => self.leaves_ahead(v, i),
            Side::Tails => self.leaves_back(v, i),
        }
    }

    // The first edge, from a link on, that leads out of the marked set from node v. A list is walked by its links.
    fn find_open(&self, next: &[usize], v: usize, start: usize, side: Side) -> Option<usize>
        requires v_lt_n { v < self.now.arcs.n }
        requires v_nonzero { 0 < at self.now.rank.now v }
        ensures { OpenIs self.now.arcs.from.now self.now.arcs.to.now self.now.arcs.gap.now self.now.flow.now self.now.y.now self.now.rank.now result }
    {
        let mut k = start;
        while k > 0 {
            let i = k - 1;
            if i >= self.arcs.from.len() {
                return None;
            }
            if self.is_open(v, i, side) {
                return Some(i);
            }
            k = next_link(next, i);
        }
        None
    }

    // The same of the list of node v, where it is a marked node; from a link on, or from the list's start where link is 0.
    fn open_node(&self, list: &Links<'_>, v: usize, link: usize, side: Side) -> Option<usize>
        ensures { OpenIs self.now.arcs.from.now self.now.arcs.to.now self.now.arcs.gap.now self.now.flow.now self.now.y.now self.now.rank.now result }
    {
        if v >= self.arcs.n {
            return None;
        }
        if self.rank[v] == 0 {
            return None;
        }
        self.find_open(list.next, v, read_link(list.head, v, link), side)
    }

    // The same over the lists of the first `marked` nodes of the queue, from a place and a link on; and where to go on.
    pub fn propose_edge(
        &self,
        list: &Links<'_>,
        side: Side,
        queue: &[usize],
        marked: usize,
        cursor: Cursor,
    ) -> (Option<usize>, Cursor)
        ensures { OpenIs self.now.arcs.from.now self.now.arcs.to.now self.now.arcs.gap.now self.now.flow.now self.now.y.now self.now.rank.now result.0 }
    {
        let mut link = cursor.link;
        for place in cursor.place..marked {
            let v = queue.get(place).copied().unwrap_or(0);
            if let Some(i) = self.open_node(list, v, link, side) {
                return (Some(i), Cursor { place, link: i + 1 });
            }
            link = 0;
        }
        (
            None,
            Cursor {
                place: cursor.place.max(marked),
                link: 0,
            },
        )
    }
}
