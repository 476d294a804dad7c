// The edges of each node in a linked list, to find one that leaves the marked set without a look at every edge.
//
// A link k above 0 is edge k - 1, and 0 ends a list: the lists are walked by their links, in flat arrays. `queue` holds the marked nodes in
// the order in which they were marked. All of it is a hint: whatever the entries are, an edge that is found is looked at before it is used,
// and a look at every edge follows where none is found. So nothing is required of these buffers.
ghost use Rattle.std.specs.Prelude.{◌≡◌, ◌≤◌, set};
ghost use Rattle.relaxation.specs.Arcs.{lists_of, link_one, link_from, link_all, link_at};
ghost use Rattle.relaxation.specs.Loans.{LinksKept};

use crate::net::Links;

// Edge a put in front of the list of node v.
#[tactic(auto, unfolding(crate::specs::Arcs::link_one))]
fn link_edge(head: &mut [usize], next: &mut [usize], v: usize, a: usize)
    ensures { lists_of head.new next.new ≡ link_one v a (lists_of head.old next.old) }
{
    if v < head.len() && a < next.len() {
        next[a] = head[v];
        head[v] = a + 1;
    }
}

// The edges put in the lists of their nodes at one end, in front of those that are there. The two slices come apart, so that none is read
// anew at each edge.
pub fn link_edges(ends: &[usize], head: &mut [usize], next: &mut [usize])
    ensures { lists_of head.new next.new ≡ link_from 0 ends.now (lists_of head.old next.old) }
{
    for (a, &v) in ends.iter().enumerate() {
        link_edge(head, next, v, a);
    }
}

impl Links<'_> {
    // The lists of the edges by their nodes at one end.
    pub fn link_edges(&mut self, ends: &[usize])
        ensures linked { lists_of self.new.head.now self.new.next.now ≡ link_all ends.now self.old.head.now self.old.next.now }
        ensures loans { LinksKept self.old self.new }
    {
        self.head.fill(0);
        link_edges(ends, self.head, self.next);
    }
}

// The link after edge a. Links fall along a list, so it ends.
pub fn next_link(next: &[usize], a: usize) -> usize
    ensures { result ≤ a }
{
    match next.get(a) {
        Some(&link) if link <= a => link,
        _ => 0,
    }
}

// The link to read on at in the list of node v: the first one where link is 0.
#[tactic(auto, unfolding(crate::specs::Arcs::link_at))]
pub fn read_link(head: &[usize], v: usize, link: usize) -> usize
    ensures { result ≡ link_at head.now v link }
{
    if link > 0 {
        return link;
    }
    head.get(v).copied().unwrap_or(0)
}

// Node v put at place i of the queue, where there is such a place.
#[tactic(auto, using(std::proofs::lemmas::List::set_past))]
pub fn put_node(queue: &mut [usize], i: usize, v: usize)
    ensures { queue.new ≡ set queue.old i v }
{
    if i < queue.len() {
        queue[i] = v;
    }
}
