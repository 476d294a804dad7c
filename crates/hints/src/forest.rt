// A forest of tight edges, searched in breadth. It is a hint: whatever the entries are, an edge is looked at before anything is handed over it.
ghost use Rattle.std.specs.Prelude.{◌≡◌, ◌≤◌, length};
ghost use Rattle.relaxation.specs.Loans.{LoanKept, HintsKept};

use relaxation::arcs::next_link;
use relaxation::net::{Arcs, Links, Side};
use relaxation::scratch::Hints;

// A forest that grows: a node that was reached has a rank above 0, the edge over which it was, and one of the first `count` places of the queue.
#[derive(Drop)]
struct Forest<'a> {
    rank: &'a mut [usize],
    parent: &'a mut [usize],
    queue: &'a mut [usize],
    count: usize,
    ghost room: { count ≤ length queue.now },
}

// The row at the other end of a tight edge of gap g that has one end in row `row`.
// There are two sides, so this is a match and takes no closure.
fn row_beyond(row: usize, g: usize, side: Side) -> usize {
    match side {
        Side::Heads => row.wrapping_add(g),
        Side::Tails => row.wrapping_sub(g),
    }
}

impl Forest<'_> {
    // Node v, where it was not reached before, reached over edge a.
    fn reach_node(&mut self, v: usize, a: usize)
        ensures { LoanKept self.old.queue self.new.queue }
    {
        if v >= self.rank.len() || v >= self.parent.len() || self.count >= self.queue.len() {
            return;
        }
        if self.rank[v] > 0 {
            return;
        }
        self.rank[v] = 1;
        self.parent[v] = a;
        self.queue[self.count] = v;
        self.count += 1;
    }

    // The end of edge a, where it was not reached before and the edge, whose other end is in row `row`, is tight.
    // Its side says which row is tight.
    fn reach_edge(&mut self, arcs: &Arcs<'_>, y: &[usize], side: Side, a: usize, row: usize)
        ensures { LoanKept self.old.queue self.new.queue }
    {
        if a >= arcs.from.len() {
            return;
        }
        let v = match side {
            Side::Heads => arcs.to[a],
            Side::Tails => arcs.from[a],
        };
        if v >= y.len() || v >= self.rank.len() {
            return;
        }
        // Most nodes were reached before, so that is asked first: the other way round takes a quarter longer.
        if self.rank[v] > 0 || y[v] != row_beyond(row, arcs.gap[a], side) {
            return;
        }
        self.reach_node(v, a);
    }

    // The ends of the edges in one list of node v. A list is walked by its links.
    fn reach_list(&mut self, arcs: &Arcs<'_>, y: &[usize], list: &Links<'_>, side: Side, v: usize)
        ensures { LoanKept self.old.queue self.new.queue }
    {
        let row = y.get(v).copied().unwrap_or(0);
        let mut k = list.head.get(v).copied().unwrap_or(0);
        while k > 0 {
            self.reach_edge(arcs, y, side, k - 1, row);
            k = next_link(list.next, k - 1);
        }
    }

    // All that is reached from a root, put in the queue. A root's parent edge is no edge.
    // A `while`, since the queue grows while it is read.
    fn grow_root(
        &mut self,
        arcs: &Arcs<'_>,
        y: &[usize],
        outs: &Links<'_>,
        ins: &Links<'_>,
        root: usize,
    )
        ensures { LoanKept self.old.queue self.new.queue }
    {
        let mut i = self.count;
        self.reach_node(root, arcs.from.len());
        while i < self.count {
            let v = self.queue[i];
            self.reach_list(arcs, y, outs, Side::Heads, v);
            self.reach_list(arcs, y, ins, Side::Tails, v);
            i += 1;
        }
    }

    // The same from a root in every node, in their order, that is not reached before. It is a method, since of a forest that its maker changes
    // in a loop the proof no longer knows which queue it has.
    fn grow_roots(
        &mut self,
        arcs: &Arcs<'_>,
        y: &[usize],
        outs: &Links<'_>,
        ins: &Links<'_>,
        order: &[usize],
    )
        ensures { LoanKept self.old.queue self.new.queue }
    {
        for &root in order {
            self.grow_root(arcs, y, outs, ins, root);
        }
    }
}

// A forest with a root in every node, in their order, that is not reached before; how many nodes it has, in the queue.
pub fn grow_forest(
    arcs: &Arcs<'_>,
    y: &[usize],
    hints: &mut Hints<'_>,
    rank: &mut [usize],
    parent: &mut [usize],
    order: &[usize],
) -> usize
    ensures count { result ≤ length hints.new.queue.now }
    ensures hints { HintsKept hints.old hints.new }
{
    rank.fill(0);
    let mut forest = Forest {
        rank,
        parent,
        queue: hints.queue,
        count: 0,
    };
    forest.grow_roots(arcs, y, &hints.outs, &hints.ins, order);
    forest.count
}
