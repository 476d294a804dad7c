// The best order of a row of a chart, from the rows, the lines and the order of the chart.
ghost use Rattle.std.specs.Prelude.{◌≡◌, ◌++◌, map, ◌<◌, ◌≤◌, length, drop};
ghost use Rattle.graph.specs.Rows.{at};
ghost use Rattle.buffers.specs.Lists.{Below};
ghost use Rattle.reordering.specs.Stacked.{Stack};
ghost use Rattle.rearranging.specs.Arranging.{Arrangeable, RowEnded, LaidEnded};

use crate::RowFigures;
use exchange::limits::{MAX_ROW_POINTS, MAX_TRIES};
use outcome::Refusal;
use points::Layout;
use points::limits::MAX_POINTS;
use reordering::{FlatChart, gather_row, order_points};
use rooms::MAX_SEGMENTS;

// Row r of lines between steps in their rows, put in its best order: the chart is laid in flat lists.
pub fn arrange_row(
    layout: &Layout<'_>,
    order: &[u16],
    r: usize,
    tries: usize,
    out: &mut [u16],
) -> Result<RowFigures, Refusal>
    requires { Arrangeable layout.now.rows.now layout.now.from.now layout.now.to.now order.now r }
    ensures { RowEnded layout.now.rows.now layout.now.from.now layout.now.to.now r tries out.old out.new result }
{
    let mut row = [0usize; MAX_POINTS];
    let mut upper = [0usize; MAX_SEGMENTS];
    let mut lower = [0usize; MAX_SEGMENTS];
    let p = layout.lay_rows(&mut row);
    let s = layout.lay_segments(&mut upper, &mut lower);
    let chart = FlatChart {
        row: &row[..p],
        upper: &upper[..s],
        lower: &lower[..s],
        order,
    };
    arrange_laid(&chart, r, tries, out)
}

// The same of flat lists: a row of too many points is refused, then too many tries, then a short buffer.
#[tactic(auto, using(crate::proofs::LaidLaws::points_low, crate::proofs::LaidLaws::ended_wide, crate::proofs::LaidLaws::ended_many, crate::proofs::LaidLaws::ended_short, crate::proofs::LaidLaws::found_fits, crate::proofs::LaidLaws::ended_ordered))]
fn arrange_laid(
    chart: &FlatChart<'_>,
    r: usize,
    tries: usize,
    out: &mut [u16],
) -> Result<RowFigures, Refusal>
    requires { Stack chart.now.row.now chart.now.upper.now chart.now.lower.now chart.now.order.now r }
    ensures { LaidEnded chart.now.row.now chart.now.upper.now chart.now.lower.now chart.now.order.now r tries out.old out.new result }
{
    let gathered = gather_row::<MAX_POINTS>(chart.order, chart.row, r);
    let points = gathered.as_slice();
    if MAX_ROW_POINTS < points.len() {
        return Err(Refusal::BadRow);
    }
    if MAX_TRIES < tries {
        return Err(Refusal::ManyTries);
    }
    if out.len() < points.len() {
        return Err(Refusal::ShortBuffer);
    }
    let found = order_points(chart, points, r, tries);
    name_points(found.order.as_slice(), points, out);
    Ok(RowFigures {
        points: points.len(),
        crossings: found.crossings,
        floor: found.floor,
    })
}

// The points of a row by their places in it, to the front of a buffer.
#[tactic(auto, using(crate::proofs::NameLaws::named_more))]
fn name_points(places: &[u8], points: &[usize], out: &mut [u16])
    requires fits { length places.now ≤ length out.old }
    requires places { Below (length points.now) places.now }
    requires points { Below 0x10000 points.now }
    ensures { out.new ≡ map (at points.now) places.now ++ drop (length places.now) out.old }
{
    for (i, &place) in places.iter().enumerate() {
        out[i] = points[place as usize] as u16;
    }
}
