// Cycle removal: which of a table's soft edges are turned, so that no loop is left; and the loops of must edges, which no turning removes.
//
// `Orientable` stays a clause: edges and the number of steps come from two calls, one after the other.
#![tactic(auto)]

mod gather;
mod judge;

ghost use Rattle.std.specs.Prelude.{◌≡◌};
ghost use Rattle.acyclic.specs.Loops.{lowest_on_loop};
ghost use Rattle.acyclic.specs.Oriented.{must_of, any_soft, turned_edges};
ghost use Rattle.orientation.specs.Orientable.{Orientable};

use crate::gather::gather_must;
use crate::judge::{judge_edges, put_must};
use acyclic::find_loop;
use arrayvec::ArrayVec;
use closure::Walks;
use graph::TableEdge;
use table::limits::{MAX_EDGES, MAX_GAP, MAX_STEPS};

// Whether one of the edges is soft.
pub fn has_soft(edges: &[TableEdge]) -> bool
    ensures { result ≡ any_soft edges.now }
{
    edges.iter().any(|e| e.soft)
}

// The lowest of n steps on a loop of must edges. n is the number of steps, and not of the edges.
pub fn find_must_loop(edges: &[TableEdge], n: usize) -> Option<usize>
    requires { Orientable n edges.now }
    ensures { result ≡ lowest_on_loop n (must_of edges.now) }
{
    let must = gather_must(edges);
    let mut y = [0usize; MAX_STEPS];
    let mut seen = [false; MAX_STEPS];
    find_loop(&must.arcs(n), MAX_STEPS * MAX_GAP, &mut y, &mut seen)
}

// Which of the edges are turned. A matrix says at any time which nodes walks over the edges that stand lead to: first those over the must
// edges alone, then those over the soft ones too that are kept. n is the number of steps.
pub fn orient_edges(edges: &[TableEdge], n: usize) -> ArrayVec<bool, MAX_EDGES>
    requires { Orientable n edges.now }
    ensures { result.items ≡ turned_edges n edges.now }
{
    let mut walks = Walks::none(n);
    put_must(edges, &mut walks);
    judge_edges(edges, &mut walks)
}
