// Rows kept low: they are relaxed again where they have come to stand high.
ghost use Rattle.std.specs.Prelude.{◌≡◌, ◌≤◌, false, length};
ghost use Rattle.graph.specs.Rows.{at};
ghost use Rattle.relaxation.specs.Certificate.{Held};
ghost use Rattle.relaxation.specs.Limits.{calm_limit, peak_limit};
ghost use Rattle.relaxation.specs.Low.{RowsLow, Lowered};
ghost use Rattle.relaxation.specs.Network.{Narrow};

use crate::net::Arcs;
use crate::relax::relax_edges;

// Relaxed rows are never above it; higher ones are relaxed again before the next search.
const CALM_LIMIT: usize = 17592186044416;

// Whether a row is above the limit of relaxed rows.
pub fn find_high(rows: &[usize]) -> bool
    ensures { result ≡ false → RowsLow (length rows.now) calm_limit rows.now }
{
    rows.iter().any(|&row| row > CALM_LIMIT)
}

// The rows relaxed again, where they have come to stand high: no row can grow past a word.
pub fn lower_rows(arcs: &Arcs<'_>, flow: &[usize], y: &mut [usize])
    requires flow_len { length flow.now ≡ length arcs.now.from.now }
    requires n_in_bounds { arcs.now.n ≤ length y.old }
    requires narrow { Narrow arcs.now.gap.now arcs.now.n }
    requires held { Held arcs.now.from.now arcs.now.to.now arcs.now.gap.now flow.now (at y.old) }
    requires rows_low { RowsLow arcs.now.n peak_limit y.old }
    ensures { Lowered arcs.now.from.now arcs.now.to.now arcs.now.gap.now flow.now arcs.now.n y.old y.new }
{
    if find_high(&y[..arcs.n]) {
        relax_edges(arcs, flow, y);
    }
}
