// The edges of a table in their fewest bytes, behind their count, and the edition that can tell them.
ghost use Rattle.std.specs.Prelude.{◌≡◌, ◌++◌, ◌+◌, ◌≤◌, length};
ghost use Rattle.graph.specs.Directed.{own_edge};
ghost use Rattle.table.specs.Limits.{max_steps};
ghost use Rattle.table.specs.Fair.{FairEdge};
ghost use Rattle.arrayvec.specs.ArrayVec.{array_vec_len};
ghost use Rattle.encoding.specs.Shortest.{edition_for, short_firmness, short_edge, short_list};
ghost use Rattle.encoding.specs.Writable.{WritableEdges};

use crate::number::{write_number, write_pair};
use arrayvec::ArrayVec;
use graph::TableEdge;
use orientation::has_soft;
use table::limits::{MAX_EDITION, MIN_EDITION, SOFT};

// The lowest edition that can tell the edges.
pub fn edition_for(edges: &[TableEdge]) -> usize
    ensures { result ≡ edition_for edges.now }
{
    if has_soft(edges) {
        MAX_EDITION
    } else {
        MIN_EDITION
    }
}

// The firmness of an edge, where the edition tells it.
#[tactic(auto, unfolding(crate::specs::Shortest::short_firmness))]
fn write_firmness<const CAP: usize>(soft: bool, edition: usize, page: &mut ArrayVec<u8, CAP>)
    requires room { array_vec_len page.old + length (short_firmness edition soft) ≤ CAP }
    ensures { page.new.items ≡ page.old.items ++ short_firmness edition soft }
{
    if edition != MIN_EDITION {
        write_number(if soft { SOFT } else { 0 }, page);
    }
}

#[tactic(auto, unfolding(crate::specs::Shortest::short_edge))]
fn write_edge<const CAP: usize>(edge: TableEdge, edition: usize, page: &mut ArrayVec<u8, CAP>)
    requires fair_edge { FairEdge max_steps (own_edge edge) }
    requires room { array_vec_len page.old + length (short_edge edition edge) ≤ CAP }
    ensures { page.new.items ≡ page.old.items ++ short_edge edition edge }
{
    write_pair(edge.from as usize, edge.to as usize, page);
    write_pair(edge.gap as usize, edge.weight as usize, page);
    write_firmness(edge.soft, edition, page);
}

// Edges behind their count.
// A loop of its own, as of the steps: a closure that puts an item on the page would need a clause longer than the loop.
#[tactic(auto, unfolding(crate::specs::Shortest::short_list))]
pub fn write_edges<const CAP: usize>(
    edges: &[TableEdge],
    edition: usize,
    page: &mut ArrayVec<u8, CAP>,
)
    requires writable_edges { WritableEdges edges.now }
    requires room { array_vec_len page.old + length (short_list (short_edge edition) edges.now) ≤ CAP }
    ensures { page.new.items ≡ page.old.items ++ short_list (short_edge edition) edges.now }
{
    write_number(edges.len(), page);
    for edge in edges {
        write_edge(*edge, edition, page);
    }
}
