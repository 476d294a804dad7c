// The stroke to a point of a chart.
ghost use Rattle.std.specs.Prelude.{◌<◌, length};
ghost use Rattle.buffers.specs.Lists.{Below};
ghost use Rattle.corners.specs.Corners.{max_place};
ghost use Rattle.coordinates.specs.Costing.{Lined};
ghost use Rattle.strokes.specs.Placing.{StrokePlaced};

use coordinates::space::space_lines;
use corners::{Stroke, stroke_to};
use flatten::Flat;
use points::Layout;
use routes::Visit;
use spacing::limits::MAX_XS;

// The stroke of a visit, by the best x and the rows of a chart's points.
pub fn place_stroke(v: Visit, rows: &[usize], ends: &Flat, order: &[u16]) -> Stroke
    requires lined { Lined rows.now ends.now order.now }
    requires below { Below max_place rows.now }
    requires point_in_bounds { v.point < length order.now }
    ensures { StrokePlaced rows.now ends.now v result }
{
    let mut row = [0usize; MAX_XS];
    let layout = Layout {
        rows,
        from: &ends.from,
        to: &ends.to,
    };
    layout.lay_rows(&mut row);
    let xs = space_lines(rows, ends, order);
    stroke_to(v.start, xs[v.point], row[v.point])
}
