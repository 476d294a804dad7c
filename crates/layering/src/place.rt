// The rows of a table's edges: soft edges are kept or turned first, where there are any.
ghost use Rattle.std.specs.Prelude.{◌≡◌, length};
ghost use Rattle.graph.specs.Directed.{directed_by};
ghost use Rattle.orientation.specs.Orientable.{Orientable};
ghost use Rattle.rows.specs.Placed.{EdgesPlaced};
ghost use Rattle.layering.specs.Calls.{EdgesRanked};

use crate::turn::turn_edges;
use arrayvec::ArrayVec;
use flatten::edges::flatten_edges;
use graph::TableEdge;
use outcome::Refusal;
use ranking::place_edges;
use rows::types::RowsFound;
use table::limits::MAX_EDGES;

// Which edges are turned, and the rows of all as kept or turned.
#[derive(Drop)]
pub struct RankedEdges {
    pub turned: ArrayVec<bool, MAX_EDGES>,
    pub found: RowsFound,
}

// The rows of a table's edges, between n steps. The edges are lent, so that whoever wants the rows alone need not hand the table on.
pub fn rank_edges(edges: &[TableEdge], n: usize) -> Result<RankedEdges, Refusal>
    requires { Orientable n edges.now }
    ensures { EdgesRanked n edges.now result }
{
    let turned = turn_edges(edges, n)?;
    let found = rank_directed(edges, &turned, n)?;
    Ok(RankedEdges { turned, found })
}

// The rows of the edges, each as its flag says.
fn rank_directed(edges: &[TableEdge], turned: &[bool], n: usize) -> Result<RowsFound, Refusal>
    requires orientable { Orientable n edges.now }
    requires turned_len { length turned.now ≡ length edges.now }
    ensures { EdgesPlaced n (directed_by turned.now edges.now) result }
{
    let flat = flatten_edges(edges, turned);
    place_edges(&flat, n)
}
