// Edges taken in turn: a must edge stands, and a soft one is kept or turned.
ghost use Rattle.std.specs.Prelude.{◌≡◌, []};
ghost use Rattle.graph.specs.Directed.{own_edge};
ghost use Rattle.table.specs.Fair.{FairEdge};
ghost use Rattle.acyclic.specs.Oriented.{must_of, turned_edges};
ghost use Rattle.closure.specs.Closure.{Closure};
ghost use Rattle.orientation.specs.Orientable.{Orientable};
ghost use Rattle.orientation.specs.Judged.{TurnJudged};

use arrayvec::ArrayVec;
use closure::Walks;
use graph::TableEdge;
use table::limits::MAX_EDGES;

// The must edges put in. The order makes no difference to the walks; from the last to the first, each comes in front of those behind it,
// as in the list of the definition.
pub fn put_must(edges: &[TableEdge], walks: &mut Walks)
    requires orientable { Orientable walks.old.n edges.now }
    requires closure { Closure walks.old.n [] walks.old.marks }
    ensures nodes { walks.new.n ≡ walks.old.n }
    ensures closure { Closure walks.old.n (must_of edges.now) walks.new.marks }
{
    for e in edges.iter().rev() {
        if !e.soft {
            walks.add_edge(e.from as usize, e.to as usize);
        }
    }
}

// Which of the edges are turned, where the must edges are put in.
pub fn judge_edges(edges: &[TableEdge], walks: &mut Walks) -> ArrayVec<bool, MAX_EDGES>
    requires orientable { Orientable walks.old.n edges.now }
    requires closure { Closure walks.old.n (must_of edges.now) walks.old.marks }
    ensures { result.items ≡ turned_edges walks.old.n edges.now }
{
    let mut turned = ArrayVec::<bool, MAX_EDGES>::new();
    for e in edges {
        turned.push(judge_edge(*e, walks));
    }
    turned
}

// Whether an edge is turned. A soft edge closes a loop where a walk leads from its head to its tail; any other is kept and put in.
fn judge_edge(e: TableEdge, walks: &mut Walks) -> bool
    requires { FairEdge walks.old.n (own_edge e) }
    ensures nodes { walks.new.n ≡ walks.old.n }
    ensures judged { TurnJudged walks.old.n e walks.old.marks walks.new.marks result }
{
    if !e.soft {
        return false;
    }
    let from = e.from as usize;
    let to = e.to as usize;
    if walks.leads(to, from) {
        return true;
    }
    walks.add_edge(from, to);
    false
}
