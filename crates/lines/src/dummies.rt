// The dummies of a chart, by number: the edge of each, and its row.
ghost use Rattle.std.specs.Prelude.{◌≡◌, ◌++◌, map, ℕ, suc, ◌+◌, ◌-◌, ◌≤◌, ◌<◌, length};
ghost use Rattle.graph.specs.Search.{run};
ghost use Rattle.arrayvec.specs.ArrayVec.{array_vec_len};
ghost use Rattle.merging.specs.Merged.{drawn_edges};
ghost use Rattle.points.specs.Points.{dummies};
ghost use Rattle.lines.specs.Printing.{numbered, dummies_on, Layable};

use arrayvec::ArrayVec;
use merging::MergedEdge;
use points::dummy::Dummy;

// The dummies of merged edges, each kept or turned as its first edge is, between steps in their rows. Each dummy bears the number of that
// edge.
pub fn lay_dummies<const CAP: usize>(
    list: &[MergedEdge],
    turned: &[bool],
    ys: &[usize],
) -> ArrayVec<Dummy, CAP>
    requires { Layable list.now turned.now ys.now CAP }
    ensures { result.items ≡ numbered list.now (dummies ys.now 0 (drawn_edges turned.now list.now)) }
{
    let mut all = ArrayVec::new();
    for merged in list {
        let first = merged.first as usize;
        let e = merged.directed(turned[first]);
        lay_edge(first, ys[e.from], ys[e.to], &mut all);
    }
    all
}

// Those of one edge, from row `top` to row `bottom`. It counts rows and indexes nothing.
fn lay_edge<const CAP: usize>(
    edge: usize,
    top: usize,
    bottom: usize,
    all: &mut ArrayVec<Dummy, CAP>,
)
    requires top_lt_bottom { top < bottom }
    requires room { array_vec_len all.old + (bottom - top - 1) ≤ CAP }
    ensures { all.new.items ≡ all.old.items ++ dummies_on edge (run (suc top) (bottom - top - 1)) }
{
    for row in top + 1..bottom {
        all.push(Dummy { edge, row });
    }
}
