// Crossings of segments, counted row by row and by insertion: no pair of segments is looked at.
//
// `Countable` stays a clause, since it says that there is some order of the points.
#![tactic(auto)]

mod between;
mod tally;

ghost use Rattle.std.specs.Prelude.{◌+◌, ◌<◌, length};
ghost use Rattle.crossings.specs.Placing.{Countable, RowCrossings, ChartCrossings};

use crate::between::count_between;
use crate::tally::{BLOCK_SIZE, Ends};
use points::lists::Side;

// A chart's order as it is kept: its rows one behind the other, where each starts, and the position of each point.
#[derive(Clone, Copy)]
pub struct Rows<'a> {
    pub order: &'a [usize],
    pub first: &'a [usize],
    pub pos: &'a [usize],
}

// The crossings of a whole chart, of which the side has the segments below each point. `counts` and `blocks` are lent for the work.
// By number: a row is its number in `first`.
pub fn count_crossings(
    rows: &Rows<'_>,
    side: &Side<'_>,
    counts: &mut [usize],
    blocks: &mut [usize],
) -> usize
    requires { Countable rows.now.order.now rows.now.first.now side.now.head.now side.now.next.now side.now.far.now rows.now.pos.now counts.old blocks.old }
    ensures { ChartCrossings rows.now.order.now rows.now.first.now side.now.head.now side.now.next.now side.now.far.now rows.now.pos.now result }
{
    let mut sum = 0;
    for r in 2..rows.first.len() {
        sum += count_row(rows, r - 2, side, counts, blocks);
    }
    sum
}

// The crossings between row r and the row below: none where either is a single point. Of the counts and blocks as many are lent on as
// the lower row has positions for.
fn count_row(
    rows: &Rows<'_>,
    r: usize,
    side: &Side<'_>,
    counts: &mut [usize],
    blocks: &mut [usize],
) -> usize
    requires countable { Countable rows.now.order.now rows.now.first.now side.now.head.now side.now.next.now side.now.far.now rows.now.pos.now counts.old blocks.old }
    requires r_in_bounds { r + 2 < length rows.now.first.now }
    ensures { RowCrossings rows.now.order.now rows.now.first.now side.now.head.now side.now.next.now side.now.far.now rows.now.pos.now r result }
{
    let a = rows.first[r];
    let b = rows.first[r + 1];
    if b - a < 2 {
        return 0;
    }
    let e = rows.first[r + 2];
    let n = e - b;
    if n < 2 {
        return 0;
    }
    let m = n / BLOCK_SIZE + 1;
    let points = &rows.order[a..b];
    let used = &mut counts[..n];
    let used_blocks = &mut blocks[..m];
    let ends = Ends {
        lower: side.far,
        pos: rows.pos,
        next: side.next,
    };
    count_between(points, side.head, &ends, used, used_blocks)
}
