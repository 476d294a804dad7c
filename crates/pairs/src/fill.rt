// The table of the costs of pairs, from the segments between a row and the row above it.
ghost use Rattle.std.specs.Prelude.{◌<◌};
ghost use Rattle.exchange.specs.Limits.{max_row_points};
ghost use Rattle.pairs.specs.Segments.{cross_either, cost_between, placed_end, placed};
ghost use Rattle.pairs.specs.Filling.{ends_limit, after_room, pair_room, UpTo, FewEnds, CostsAdded, FilledIs};

use crate::ends::Ends;
use exchange::limits::MAX_ROW_POINTS;

// Two segments. They cross where the points below stand the other way round than the places above.
fn count_pair(costs: &mut [usize], a: Ends, b: Ends)
    requires up_to { UpTo pair_room costs.old }
    requires points { (a.lower < max_row_points) × (b.lower < max_row_points) }
    ensures { CostsAdded 1 (cross_either (placed_end 0 a) (placed_end 0 b)) costs.old costs.new }
{
    if b.upper < a.upper {
        costs[a.lower * MAX_ROW_POINTS + b.lower] += 1;
    } else if a.upper < b.upper {
        costs[b.lower * MAX_ROW_POINTS + a.lower] += 1;
    }
}

// A segment with those after it.
fn count_after(segment: Ends, after: &[Ends], costs: &mut [usize])
    requires point { segment.lower < max_row_points }
    requires few_ends { FewEnds max_row_points after.now }
    requires up_to { UpTo after_room costs.old }
    ensures { CostsAdded ends_limit (cost_between (placed_end 0 segment) (placed 0 after.now)) costs.old costs.new }
{
    for &other in after {
        count_pair(costs, segment, other);
    }
}

// All segments; the table is empty before.
pub fn fill_costs(segments: &[Ends], costs: &mut [usize])
    requires few_ends { FewEnds max_row_points segments.now }
    requires up_to { UpTo 0 costs.old }
    ensures { FilledIs segments.now costs.new }
{
    for (a, &segment) in segments.iter().enumerate() {
        count_after(segment, &segments[a + 1..], costs);
    }
}
