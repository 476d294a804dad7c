// The best order of a row of a chart, from the segments between it and the row above it: where their upper ends stand there, and where their
// lower ends stand in the row now.
#![tactic(auto)]

mod ends;
mod fill;

ghost use Rattle.std.specs.Prelude.{◌≤◌};
ghost use Rattle.exchange.specs.Limits.{max_row_points};
ghost use Rattle.pairs.specs.Filling.{FewEnds, CrossedIs};

pub use crate::ends::Ends;
use crate::fill::fill_costs;
use exchange::limits::PAIR_TABLE;
use exchange::{RowFound, order_row};

// The best order of a row of k points, of the present one and as many after it as there are tries.
pub fn order_segments(k: usize, segments: &[Ends], tries: usize) -> RowFound
    requires k_le_max_row_points { k ≤ max_row_points }
    requires few_ends { FewEnds k segments.now }
    ensures { CrossedIs segments.now tries k result.order.items result.crossings result.floor }
{
    let mut costs = [0usize; PAIR_TABLE];
    fill_costs(segments, &mut costs);
    order_row(k, &costs, tries)
}
