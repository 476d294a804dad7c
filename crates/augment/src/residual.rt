// What a search for an edge out of the marked set reads, and changes nothing of.
ghost use Rattle.std.specs.Prelude.{◌≡◌, ◌≤◌, length};
ghost use Rattle.graph.specs.Rows.{at};
ghost use Rattle.relaxation.specs.Certificate.{Held};

use relaxation::net::Arcs;

// Edges, a flow, rows that are held, and the ranks of the nodes, above 0 where they are marked.
#[derive(Clone, Copy)]
pub struct Residual<'a, 's> {
    pub arcs: Arcs<'a>,
    pub flow: &'s [usize],
    pub y: &'s [usize],
    pub rank: &'s [usize],
    ghost y_long: { arcs.n ≤ length y.now },
    ghost rank_long: { arcs.n ≤ length rank.now },
    ghost flow_long: { length flow.now ≡ length arcs.from.now },
    ghost held: { Held arcs.from.now arcs.to.now arcs.gap.now flow.now (at y.now) },
}
