// Edges in flat lists, one list a field: copies of a table's edges, and of edges that are lent as records or as numbers.
#![tactic(auto)]

pub mod edges;
pub mod numbers;
pub mod records;

ghost use Rattle.std.specs.Prelude.{◌≡◌, [], ◌∷◌, ◌++◌, ◌<◌, length};
ghost use Rattle.graph.specs.Rows.{Within};
ghost use Rattle.table.specs.Limits.{max_edges};
ghost use Rattle.flatten.specs.Even.{Even};

use copylist::CopyList;
use graph::Edge;
use relaxation::net::Arcs;
use table::limits::MAX_EDGES;

// Edges in flat lists, one list a field, of at most so many.
#[derive(Clone, Copy)]
pub struct EdgeLists<const CAP: usize> {
    pub from: CopyList<usize, CAP>,
    pub to: CopyList<usize, CAP>,
    pub gap: CopyList<usize, CAP>,
    pub weight: CopyList<usize, CAP>,
    ghost even: { Even from.items to.items gap.items weight.items },
}

// As many as a table can have.
pub type Flat = EdgeLists<MAX_EDGES>;

impl<const CAP: usize> EdgeLists<CAP> {
    ghost use Rattle.flatten.specs.Flat.{flat_edges};

    // No edges.
    pub fn new() -> Self
        ensures { flat_edges result ≡ [] }
    {
        EdgeLists {
            from: CopyList::<usize, CAP>::new(),
            to: CopyList::<usize, CAP>::new(),
            gap: CopyList::<usize, CAP>::new(),
            weight: CopyList::<usize, CAP>::new(),
        }
    }

    // One edge more, field by field. There must be room.
    pub fn push(&mut self, e: Edge)
        requires { length (flat_edges self.old) < CAP }
        ensures { flat_edges self.new ≡ flat_edges self.old ++ e ∷ [] }
    {
        self.from.push(e.from);
        self.to.push(e.to);
        self.gap.push(e.gap);
        self.weight.push(e.weight);
    }

    // The edges as the solver takes them, where they join n nodes.
    pub fn arcs(&self, n: usize) -> Arcs<'_>
        requires { Within n (flat_edges self.now) }
        ensures from { result.from.now ≡ self.now.from.items }
        ensures to { result.to.now ≡ self.now.to.items }
        ensures gap { result.gap.now ≡ self.now.gap.items }
        ensures nodes { result.n ≡ n }
    {
        Arcs {
            from: &self.from,
            to: &self.to,
            gap: &self.gap,
            n,
        }
    }
}
