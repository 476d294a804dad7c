// Passes over an order that is kept flat: row by row the points are put in order, and their positions stored.
//
// `Standing` stays a clause: it says that there is some order, and a fact of a type is a proposition with one proof.
#![tactic(auto)]

pub mod start;

ghost use Rattle.std.specs.Prelude.{◌≡◌, ◌<◌, length};
ghost use Rattle.passes.specs.Order.{settle_row, pass, downward, upward};
ghost use Rattle.buffers.specs.Lists.{Below};
ghost use Rattle.barycentre.specs.Flat.{ends_in};
ghost use Rattle.passes.specs.Laid.{stored, segments_in, rows_held, Standing, ChangedBy, Placeable, Positioned};
ghost use Rattle.passes.specs.Kept.{WorkKept};

use barycentre::order_by_means;
use points::lists::Side;

// Room for the work of a pass: a sum by point, and a row.
#[derive(Drop)]
pub struct Work<'a> {
    pub totals: &'a mut [usize],
    pub moved: &'a mut [usize],
}

// The positions of the points of a row, stored by point.
pub fn place_row(row: &[usize], pos: &mut [usize])
    requires { Below (length pos.old) row.now }
    ensures { pos.new ≡ stored 0 row.now pos.old }
{
    for (i, &p) in row.iter().enumerate() {
        pos[p] = i;
    }
}

// The positions of all points, of an order and where its rows start.
pub fn place_all(order: &[usize], first: &[usize], pos: &mut [usize])
    requires { Placeable (rows_held first.now) order.now first.now pos.old }
    ensures { Positioned (rows_held first.now) order.now first.now pos.new }
{
    for (&a, &b) in first.iter().zip(&first[1..]) {
        place_row(&order[a..b], pos);
    }
}

// Row r put in order by the positions of the far ends of its points, and its positions stored.
fn settle_row(
    side: &Side<'_>,
    first: &[usize],
    r: usize,
    order: &mut [usize],
    pos: &mut [usize],
    work: &mut Work<'_>,
)
    requires standing { Standing side.now.far.now side.now.head.now side.now.next.now side.now.counts.now (rows_held first.now) order.old first.now pos.old work.old.totals.now work.old.moved.now }
    requires r_bound { r < rows_held first.now }
    ensures changed { ChangedBy side.now.far.now side.now.head.now side.now.next.now side.now.counts.now (rows_held first.now) (λ near ys. settle_row (ends_in near side.now.far.now) ys r) first.now order.old pos.old order.new pos.new }
    ensures work_kept { WorkKept work.old work.new }
{
    let a = first[r];
    let b = first[r + 1];
    let row = &mut order[a..b];
    order_by_means(row, side, pos, work.totals, work.moved);
    place_row(row, pos);
}

// A pass down: the rows from row 1 on, each by the row above, of which the side has the segments.
// By number: a row is its number in `first`.
pub fn pass_down(
    side: &Side<'_>,
    first: &[usize],
    order: &mut [usize],
    pos: &mut [usize],
    work: &mut Work<'_>,
)
    requires { Standing side.now.far.now side.now.head.now side.now.next.now side.now.counts.now (rows_held first.now) order.old first.now pos.old work.old.totals.now work.old.moved.now }
    ensures changed { ChangedBy side.now.far.now side.now.head.now side.now.next.now side.now.counts.now (rows_held first.now) (λ lower ys. pass (segments_in side.now.far.now lower) ys downward) first.now order.old pos.old order.new pos.new }
    ensures work_kept { WorkKept work.old work.new }
{
    let count = first.len() - 1;
    for r in 1..count {
        settle_row(side, first, r, order, pos, work);
    }
}

// A pass up: the rows from the second-last to row 0, each by the row below, of which the side has the segments. By number, as a pass down.
pub fn pass_up(
    side: &Side<'_>,
    first: &[usize],
    order: &mut [usize],
    pos: &mut [usize],
    work: &mut Work<'_>,
)
    requires { Standing side.now.far.now side.now.head.now side.now.next.now side.now.counts.now (rows_held first.now) order.old first.now pos.old work.old.totals.now work.old.moved.now }
    ensures changed { ChangedBy side.now.far.now side.now.head.now side.now.next.now side.now.counts.now (rows_held first.now) (λ upper ys. pass (segments_in upper side.now.far.now) ys upward) first.now order.old pos.old order.new pos.new }
    ensures work_kept { WorkKept work.old work.new }
{
    let count = first.len() - 1;
    for r in (1..count).rev() {
        settle_row(side, first, r - 1, order, pos, work);
    }
}
