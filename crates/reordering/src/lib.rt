// The best order of one row of a chart that is laid in flat lists: the row of each point, the ends of each segment, and the order, its rows
// one behind the other.
#![tactic(auto)]

mod pick;

ghost use Rattle.std.specs.Prelude.{◌≡◌, ◌≤◌, length};
ghost use Rattle.buffers.specs.Lists.{Below};
ghost use Rattle.exchange.specs.Limits.{max_row_points};
ghost use Rattle.reordering.specs.Stacked.{points_of, Stack, RowFoundIs};

use crate::pick::pick_segments;
use arrayvec::ArrayVec;
use exchange::RowFound;
use pairs::order_segments;
use passes::place_row;
use points::limits::MAX_POINTS;

// A chart in flat lists: the row of each point, the points at the ends of each segment, and the points row by row.
#[derive(Clone, Copy)]
pub struct FlatChart<'a> {
    pub row: &'a [usize],
    pub upper: &'a [usize],
    pub lower: &'a [usize],
    pub order: &'a [u16],
}

// The points of row r as they stand in the order, in a list that has room for all of the order.
pub fn gather_row<const CAP: usize>(order: &[u16], row: &[usize], r: usize) -> ArrayVec<usize, CAP>
    requires below { Below (length row.now) order.now }
    requires few { length order.now ≤ CAP }
    ensures { result.items ≡ points_of row.now r order.now }
{
    let mut points = ArrayVec::new();
    for &p in order {
        let p = p as usize;
        if row[p] == r {
            points.push(p);
        }
    }
    points
}

// The best order of row r, whose points these are, of the present one and as many after it as there are tries: the points by where they
// stand now.
pub fn order_points(chart: &FlatChart<'_>, points: &[usize], r: usize, tries: usize) -> RowFound
    requires stack { Stack chart.now.row.now chart.now.upper.now chart.now.lower.now chart.now.order.now r }
    requires points_value { points.now ≡ points_of chart.now.row.now r chart.now.order.now }
    requires points_len_bound { length points.now ≤ max_row_points }
    ensures { RowFoundIs chart.now.row.now chart.now.upper.now chart.now.lower.now chart.now.order.now points.now r tries result.order.items result.crossings result.floor }
{
    let above = gather_row::<MAX_POINTS>(chart.order, chart.row, r - 1);
    let mut pos = [0usize; MAX_POINTS];
    place_row(above.as_slice(), &mut pos);
    place_row(points, &mut pos);
    let mut segments = ArrayVec::new();
    pick_segments(chart, &pos, r - 1, &mut segments);
    order_segments(points.len(), segments.as_slice(), tries)
}
