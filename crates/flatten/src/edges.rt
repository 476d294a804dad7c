// A table's edges, copied to flat lists.
//
// That there is a flag for each edge stays a clause: edges and flags come from two calls, one after the other.
ghost use Rattle.std.specs.Prelude.{◌≡◌, ◌≤◌, length};
ghost use Rattle.graph.specs.Directed.{directed_by};
ghost use Rattle.table.specs.Limits.{max_edges};
ghost use Rattle.flatten.specs.Flat.{flat_edges};

use crate::Flat;
use graph::TableEdge;

// The edges, each as it is or turned, as its flag says.
pub fn flatten_edges(edges: &[TableEdge], turned: &[bool]) -> Flat
    requires few { length edges.now ≤ max_edges }
    requires turned_len { length turned.now ≡ length edges.now }
    ensures { flat_edges result ≡ directed_by turned.now edges.now }
{
    let mut flat = Flat::new();
    for (e, turn) in edges.iter().zip(turned) {
        flat.push(e.directed(*turn));
    }
    flat
}
