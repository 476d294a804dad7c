// Repeated edges: those with equal ends and equal firmness are drawn as one line, here a merged edge (the `lines` of other crates are those
// of a listing). Rows are found without it.
#![tactic(auto)]

mod slots;

ghost use Rattle.std.specs.Prelude.{◌≡◌, ◌≤◌, ◌<◌};
ghost use Rattle.graph.specs.Directed.{directed};
ghost use Rattle.table.specs.Limits.{max_edges};
ghost use Rattle.merging.specs.Merged.{as_edge, merged};
ghost use Rattle.merging.specs.Merging.{max_added, Mergeable, merged_alone, joined};

use crate::slots::{SUMS, find_slot, key_of};
use arrayvec::ArrayVec;
use graph::{Edge, TableEdge};
use table::limits::MAX_EDGES;

// Edges that are drawn as one: their ends in the table and their firmness, the largest gap, the weights added, and the number of the first.
#[derive(Clone, Copy, Debug, Default, PartialEq, Eq)]
pub struct MergedEdge {
    pub from: u8,
    pub to: u8,
    pub gap: u8,
    pub soft: bool,
    pub first: u16,
    pub weight: u32,
}

// A table's edges, those merged that are drawn as one. Each merged edge stands where its first edge does among the firsts.
pub fn merge_edges(edges: &[TableEdge]) -> ArrayVec<MergedEdge, MAX_EDGES>
    requires { Mergeable edges.now }
    ensures { result.items ≡ merged edges.now }
{
    let mut list = ArrayVec::<MergedEdge, MAX_EDGES>::new();
    let mut keys = ArrayVec::<usize, MAX_EDGES>::new();
    let mut next = ArrayVec::<usize, MAX_EDGES>::new();
    let mut heads = [0usize; SUMS];
    for (i, e) in edges.iter().enumerate() {
        let sum = e.from as usize + e.to as usize;
        let key = key_of(*e);
        match find_slot(&keys, &next, heads[sum], key) {
            Some(place) => list[place] = list[place].joined(*e),
            None => {
                list.push(MergedEdge::alone(*e, i));
                keys.push(key);
                next.push(heads[sum]);
                heads[sum] = next.len();
            }
        }
    }
    list
}

impl MergedEdge {
    // The merged edge as an edge, as it is or turned.
    pub fn directed(self, turned: bool) -> Edge
        ensures { result ≡ directed turned (as_edge self) }
    {
        Edge::from(self).directed(turned)
    }

    // The merged edge that edge i starts.
    fn alone(e: TableEdge, i: usize) -> MergedEdge
        requires { i < max_edges }
        ensures { result ≡ merged_alone i e }
    {
        MergedEdge {
            from: e.from,
            to: e.to,
            gap: e.gap,
            soft: e.soft,
            first: i as u16,
            weight: e.weight as u32,
        }
    }

    // The merged edge with one edge more.
    fn joined(self, e: TableEdge) -> MergedEdge
        requires { self.weight ≤ max_added }
        ensures { result ≡ joined e self }
    {
        MergedEdge {
            from: self.from,
            to: self.to,
            gap: self.gap.max(e.gap),
            soft: self.soft,
            first: self.first,
            weight: self.weight + e.weight as u32,
        }
    }
}

// A merged edge without its firmness.
impl From<MergedEdge> for Edge {
    ghost from_gives = { λ e r. r ≡ as_edge e };

    fn from(e: MergedEdge) -> Edge {
        Edge {
            from: e.from as usize,
            to: e.to as usize,
            gap: e.gap as usize,
            weight: e.weight as usize,
        }
    }
}
