// Which of a table's edges are turned before its rows are found.
ghost use Rattle.orientation.specs.Orientable.{Orientable};
ghost use Rattle.layering.specs.Calls.{EdgesTurned};

use arrayvec::ArrayVec;
use graph::TableEdge;
use orientation::{find_must_loop, has_soft, orient_edges};
use outcome::Refusal;
use table::limits::MAX_EDGES;

// A flag for each edge, or the lowest step on a loop of must edges. Edges of which none is soft are all as they are, and the search for a
// loop that finding rows begins with is enough. n is the number of steps, and not of the edges.
pub fn turn_edges(edges: &[TableEdge], n: usize) -> Result<ArrayVec<bool, MAX_EDGES>, Refusal>
    requires { Orientable n edges.now }
    ensures { EdgesTurned n edges.now result }
{
    if !has_soft(edges) {
        let mut turned = ArrayVec::from([false; MAX_EDGES]);
        turned.truncate(edges.len());
        return Ok(turned);
    }
    if let Some(s) = find_must_loop(edges, n) {
        return Err(Refusal::Loop(s));
    }
    Ok(orient_edges(edges, n))
}
