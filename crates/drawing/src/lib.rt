// The drawing of a chart: its points laid in rows, and of the start order and the results of eight passes the first with fewest crossings.
// A small chart is laid and drawn in the smaller of two sizes of room.
#![tactic(auto)]

ghost use Rattle.std.specs.Prelude.{◌≡◌, ◌≤◌, length};
ghost use Rattle.points.specs.Limits.{max_points};
ghost use Rattle.points.specs.Points.{point_rows};
ghost use Rattle.points.specs.Laying.{edges_between};
ghost use Rattle.fewest.specs.Fewest.{drawing_of};
ghost use Rattle.rooms.specs.Rooms.{segment_room, DrawnIs};
ghost use Rattle.drawing.specs.Drawing.{Drawable};

use fewest::Sketch;
use points::limits::MAX_POINTS;
use points::{Layout, count_rows};
use rooms::{MAX_SEGMENTS, SMALL_POINTS, SMALL_SEGMENTS, draw_order};

// Of nodes in their rows and the ends of edges, which make so many points: the first order with fewest crossings, of the start and eight
// passes, to the first entries of a buffer. Answers its crossings.
pub fn draw_points(layout: &Layout<'_>, points: usize, order: &mut [u16]) -> usize
    requires drawable { Drawable layout.now.rows.now layout.now.from.now layout.now.to.now }
    requires points_value { points ≡ length (point_rows layout.now.rows.now (edges_between layout.now.from.now layout.now.to.now)) }
    requires points_in_bounds { points ≤ length order.old }
    ensures { DrawnIs (drawing_of layout.now.rows.now (edges_between layout.now.from.now layout.now.to.now)) order.old order.new result }
{
    if points <= SMALL_POINTS {
        return draw_in::<SMALL_POINTS, SMALL_SEGMENTS>(layout, order);
    }
    draw_in::<MAX_POINTS, MAX_SEGMENTS>(layout, order)
}

// A chart laid in room for so many points and segments, and drawn.
fn draw_in<const POINTS: usize, const SEGMENTS: usize>(
    layout: &Layout<'_>,
    order: &mut [u16],
) -> usize
    requires sizes { (POINTS ≤ max_points) × (SEGMENTS ≡ segment_room POINTS) }
    requires drawable { Drawable layout.now.rows.now layout.now.from.now layout.now.to.now }
    requires points_fit { length (point_rows layout.now.rows.now (edges_between layout.now.from.now layout.now.to.now)) ≤ POINTS }
    requires order_fits { length (point_rows layout.now.rows.now (edges_between layout.now.from.now layout.now.to.now)) ≤ length order.old }
    ensures { DrawnIs (drawing_of layout.now.rows.now (edges_between layout.now.from.now layout.now.to.now)) order.old order.new result }
{
    let mut row = [0usize; POINTS];
    let p = layout.lay_rows(&mut row);
    let mut upper = [0usize; SEGMENTS];
    let mut lower = [0usize; SEGMENTS];
    let s = layout.lay_segments(&mut upper, &mut lower);
    let row = &row[..p];
    let upper = &upper[..s];
    let lower = &lower[..s];
    let sketch = Sketch { row, upper, lower };
    draw_order(&sketch, count_rows(layout.rows), order)
}
