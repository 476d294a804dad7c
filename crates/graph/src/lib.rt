// Edges between numbered nodes: the vocabulary that the reader, the solver and the row finder share.
#![tactic(auto)]

ghost use Rattle.std.specs.Prelude.{◌≡◌};
ghost use Rattle.graph.specs.Directed.{own_edge, directed};

// An edge (document 01: an arrow). Its head stands at least `gap` rows below its tail, and each row of its length costs `weight`.
#[derive(Clone, Copy, Debug, Default, PartialEq, Eq)]
pub struct Edge {
    pub from: usize,
    pub to: usize,
    pub gap: usize,
    pub weight: usize,
}

// An edge of a table, and its firmness (document 02): a soft edge may be turned, any other is a must edge. Each of its numbers fits a byte,
// so that there is little to copy where a table is handed on.
#[derive(Clone, Copy, Debug, Default, PartialEq, Eq)]
pub struct TableEdge {
    pub from: u8,
    pub to: u8,
    pub gap: u8,
    pub weight: u8,
    pub soft: bool,
}

impl Edge {
    // The edge as it is, or turned. No conversion, since which of the two is an argument.
    pub fn directed(self, turned: bool) -> Edge
        ensures { result ≡ directed turned self }
    {
        if turned {
            return Edge {
                from: self.to,
                to: self.from,
                gap: self.gap,
                weight: self.weight,
            };
        }
        self
    }
}

// A table's edge without its firmness.
impl From<TableEdge> for Edge {
    ghost from_gives = { λ e r. r ≡ own_edge e };

    fn from(e: TableEdge) -> Edge {
        Edge {
            from: e.from as usize,
            to: e.to as usize,
            gap: e.gap as usize,
            weight: e.weight as usize,
        }
    }
}

impl TableEdge {
    // The edge without its firmness, as it is or turned.
    pub fn directed(self, turned: bool) -> Edge
        ensures { result ≡ directed turned (own_edge self) }
    {
        Edge::from(self).directed(turned)
    }
}
