// The x of a chart's points, in a buffer that is lent: how far from the left each point stands, so that long lines run straight.
//
// The call takes any input, ends, and has no condition. Its contract puts its answer, told in numbers, and the buffer equal to what a
// definition of specs/Calls.antt makes of the input, and says of the x of an answer that they are the best.
#![tactic(auto)]

mod cost;
pub mod space;

ghost use Rattle.std.specs.Prelude.{◌≡◌};
ghost use Rattle.coordinates.specs.Calls.{xs_call, xs_numbers, XsBest};

use crate::space::space_lines;
use buffers::store_u16;
use ordering::chart::merge_ends;
use ordering::chart_table;
use outcome::Refusal;
use spacing::limits::MAX_XS;

// The x of each point of a table's chart, by the point's number, to the first entries of a buffer, and how many these are. Refuses as the
// whole chart does, then more points than get an x, then a buffer with fewer entries than it is to get.
pub fn find_xs(bytes: &[u8], xs: &mut [u16]) -> Result<usize, Refusal>
    ensures result_value { xs_numbers result ≡ (xs_call bytes.now xs.old).numbers }
    ensures xs_after { xs.new ≡ (xs_call bytes.now xs.old).xs }
    ensures xs_best { XsBest bytes.now (xs_numbers result) xs.new }
{
    let charted = chart_table(bytes)?;
    let chart = charted.chart;
    let points = chart.order.len();
    if MAX_XS < points {
        return Err(Refusal::LargeChart);
    }
    if xs.len() < points {
        return Err(Refusal::ShortBuffer);
    }
    let ends = merge_ends(&charted.table.edges, &charted.turned);
    let best = space_lines(&chart.rows, &ends, &chart.order);
    store_u16(&best, points, xs);
    Ok(points)
}
