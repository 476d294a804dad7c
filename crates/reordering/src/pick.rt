// The segments that start from a row, by the positions of their ends.
ghost use Rattle.std.specs.Prelude.{◌≡◌, ◌≤◌, length};
ghost use Rattle.points.specs.Limits.{max_points};
ghost use Rattle.rooms.specs.Rooms.{segment_room};
ghost use Rattle.pairs.specs.Segments.{placed};
ghost use Rattle.reordering.specs.Picking.{Pickable, starting_in};

use crate::FlatChart;
use arrayvec::ArrayVec;
use pairs::Ends;
use rooms::MAX_SEGMENTS;

// Those from row r, in their order: what a list has then. It is lent, since its whole room would be copied where it was handed out.
pub fn pick_segments(
    chart: &FlatChart<'_>,
    pos: &[usize],
    r: usize,
    picked: &mut ArrayVec<Ends, MAX_SEGMENTS>,
)
    requires pickable { Pickable chart.now.upper.now chart.now.lower.now chart.now.row.now pos.now }
    requires few { length chart.now.upper.now ≤ segment_room max_points }
    ensures { placed r picked.new.items ≡ starting_in chart.now.upper.now chart.now.lower.now chart.now.row.now pos.now r }
{
    picked.clear();
    for (&u, &l) in chart.upper.iter().zip(chart.lower) {
        if chart.row[u] == r {
            picked.push(Ends {
                upper: pos[u],
                lower: pos[l],
            });
        }
    }
}
