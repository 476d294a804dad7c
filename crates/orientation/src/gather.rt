// The must edges of a table, copied to flat lists.
ghost use Rattle.std.specs.Prelude.{◌≡◌, ◌≤◌, length};
ghost use Rattle.table.specs.Limits.{max_edges};
ghost use Rattle.flatten.specs.Flat.{flat_edges};
ghost use Rattle.acyclic.specs.Oriented.{must_of};

use flatten::Flat;
use graph::{Edge, TableEdge};

// The must edges, in the table's order.
pub fn gather_must(edges: &[TableEdge]) -> Flat
    requires { length edges.now ≤ max_edges }
    ensures { flat_edges result ≡ must_of edges.now }
{
    let mut must = Flat::new();
    for e in edges {
        if !e.soft {
            must.push(Edge::from(*e));
        }
    }
    must
}
