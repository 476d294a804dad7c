// Edges with the row of each node.
ghost use Rattle.std.specs.Prelude.{◌≡◌, ◌↔◌, IsTrue, ◌+◌, ◌≤◌, ◌<◌, length};
ghost use Rattle.graph.specs.Rows.{at};
ghost use Rattle.relaxation.specs.Relax.{Sums};

use relaxation::net::Arcs;

// Edges, and rows that are low enough for what each edge asks of its head to fit a word.
#[derive(Clone, Copy)]
pub struct Rows<'a> {
    pub arcs: Arcs<'a>,
    pub y: &'a [usize],
    ghost room: { arcs.n ≤ length y.now },
    ghost sums: { Sums arcs.from.now arcs.gap.now y.now },
}

impl Rows<'_> {
    // Whether edge a is tight.
    pub fn is_tight(&self, a: usize) -> bool
        requires { a < length self.now.arcs.from.now }
        ensures { IsTrue result ↔ (at self.now.y.now (at self.now.arcs.to.now a) ≡ at self.now.y.now (at self.now.arcs.from.now a) + at self.now.arcs.gap.now a) }
    {
        self.y[self.arcs.to[a]] == self.y[self.arcs.from[a]] + self.arcs.gap[a]
    }
}
