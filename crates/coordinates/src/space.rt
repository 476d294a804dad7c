// The best x of a chart, from its rows, its lines and its order.
ghost use Rattle.coordinates.specs.Costing.{Lined, LinesSpaced};

use crate::cost::lay_costs;
use flatten::Flat;
use points::Layout;
use spacing::find_x;
use spacing::limits::{MAX_NODES, MAX_SEGMENTS, MAX_XS};

// The best x of the points of lines between steps in their rows, in the first entries of the answer.
// Rows and segments are laid in slices, so they come with their counts.
pub fn space_lines(rows: &[usize], ends: &Flat, order: &[u16]) -> [usize; MAX_NODES]
    requires { Lined rows.now ends.now order.now }
    ensures { LinesSpaced rows.now ends.now order.now result }
{
    let mut row = [0usize; MAX_XS];
    let mut upper = [0usize; MAX_SEGMENTS];
    let mut lower = [0usize; MAX_SEGMENTS];
    let layout = Layout {
        rows,
        from: &ends.from,
        to: &ends.to,
    };
    let p = layout.lay_rows(&mut row);
    let s = layout.lay_segments(&mut upper, &mut lower);
    let cost = lay_costs(rows, ends);
    find_x(order, &row[..p], &upper[..s], &lower[..s], &cost)
}
