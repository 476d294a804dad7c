// The row finder for edges that stand in flat lists: what it does for every form in which edges come.
#![tactic(auto)]

ghost use Rattle.flatten.specs.Flat.{flat_edges};
ghost use Rattle.rows.specs.Placed.{FairEdges, EdgesPlaced};

use acyclic::find_loop;
use arrayvec::ArrayVec;
use flatten::Flat;
use network::best_rows;
use outcome::Refusal;
use relaxation::net::Net;
use rows::total::total_rows;
use rows::types::RowsFound;
use table::limits::{MAX_EDGES, MAX_GAP, MAX_STEPS};

// The rows of edges between n steps: a loop is refused, and the solver finds the rows of any other edges. It begins at the rows that
// settled when a loop was sought.
pub fn place_edges(flat: &Flat, n: usize) -> Result<RowsFound, Refusal>
    requires { FairEdges n (flat_edges flat.now) }
    ensures { EdgesPlaced n (flat_edges flat.now) result }
{
    let net = Net {
        arcs: flat.arcs(n),
        weight: &flat.weight,
    };
    let mut y = [0usize; MAX_STEPS];
    let mut seen = [false; MAX_STEPS];
    if let Some(s) = find_loop(&net.arcs, MAX_STEPS * MAX_GAP, &mut y, &mut seen) {
        return Err(Refusal::Loop(s));
    }
    best_rows::<MAX_STEPS, MAX_EDGES>(&net, &mut y);
    let mut rows = ArrayVec::from(y);
    rows.truncate(n);
    let total = total_rows(&flat.from, &flat.to, &flat.weight, &rows);
    Ok(RowsFound { rows, total })
}
