// The first order with fewest crossings: of the points in their start order and after each of eight passes.
#![tactic(auto)]

ghost use Rattle.std.specs.Prelude.{◌≡◌, ◌≤◌, length};
ghost use Rattle.passes.specs.Order.{downward};
ghost use Rattle.passes.specs.Laid.{rows_held};
ghost use Rattle.passes.specs.Kept.{WorkKept};
ghost use Rattle.points.specs.Lists.{Lists, Linked};
ghost use Rattle.buffers.specs.Lists.{Below};
ghost use Rattle.barycentre.specs.Steps.{Counted};
ghost use Rattle.fewest.specs.Fewest.{pass_count};
ghost use Rattle.fewest.specs.Drafts.{best_in, ListRoom, Prepared, Roomy, Scratch, Improving, DrawingHeld};
ghost use Rattle.fewest.specs.Kept.{DraftKept};
ghost use Rattle.sweep.specs.Kept.{RoomKept};

use barycentre::count_ends;
use buffers::copy_all;
use crossings::{Rows, count_crossings};
use fewest::{Draft, Sides, Sketch, improve_drawing};
use passes::start::start_order;
use passes::{Work, place_all};
use points::lists::{Side, link_points};

// Room for the segments on one side of the points: a list for each point, and how many segments it has.
#[derive(Drop)]
pub struct SideRoom<'a> {
    pub head: &'a mut [usize],
    pub next: &'a mut [usize],
    pub counts: &'a mut [usize],
}

// Of points in their rows and the ends of segments: the first order with fewest crossings, of the start and eight passes, to the first
// entries of `saved`. Answers its crossings. All else that is lent is room for the work.
pub fn find_fewest(
    sketch: &Sketch<'_>,
    draft: &mut Draft<'_>,
    above: &mut SideRoom<'_>,
    below: &mut SideRoom<'_>,
    work: &mut Work<'_>,
    saved: &mut [usize],
) -> usize
    requires room_above { ListRoom sketch.now.row.now sketch.now.lower.now above.old.head.now above.old.next.now above.old.counts.now }
    requires room_below { ListRoom sketch.now.row.now sketch.now.upper.now below.old.head.now below.old.next.now below.old.counts.now }
    requires roomy { Roomy sketch.now.row.now draft.old.first.now draft.old.order.now draft.old.pos.now saved.old }
    requires scratch { Scratch sketch.now.row.now work.old.totals.now work.old.moved.now }
    requires first_in_bounds { rows_held draft.old.first.now ≤ length work.old.totals.now }
    requires before_len { length draft.old.before.now ≡ length draft.old.order.now }
    ensures held { DrawingHeld (best_in sketch.now.row.now sketch.now.upper.now sketch.now.lower.now draft.old.first.now) saved.new result }
    ensures draft_kept { DraftKept draft.old draft.new }
    ensures above_kept { RoomKept above.old above.new }
    ensures below_kept { RoomKept below.old below.new }
    ensures work_kept { WorkKept work.old work.new }
{
    list_ends(sketch.lower, above.head, above.next, above.counts);
    let upward = side_of(sketch.upper, above);
    list_ends(sketch.upper, below.head, below.next, below.counts);
    let downward = side_of(sketch.lower, below);
    let sides = Sides {
        row: sketch.row,
        above: upward,
        below: downward,
    };
    let crossings = start_drawing(
        sketch,
        &sides.below,
        draft.first,
        draft.order,
        draft.pos,
        work,
        saved,
    );
    improve_drawing(&sides, draft, work, saved, crossings)
}

// The segments that are listed in lent room, with the points at their far ends.
fn side_of<'a>(far: &'a [usize], room: &'a SideRoom<'_>) -> Side<'a>
    requires { Lists far.now room.now.head.now room.now.next.now }
    ensures far_ends { result.far.now ≡ far.now }
    ensures heads { result.head.now ≡ room.now.head.now }
    ensures links { result.next.now ≡ room.now.next.now }
    ensures counted { result.counts.now ≡ room.now.counts.now }
{
    Side {
        far,
        head: room.head,
        next: room.next,
        counts: room.counts,
    }
}

// Segments listed and counted by the points at their near ends.
fn list_ends(near: &[usize], head: &mut [usize], next: &mut [usize], counts: &mut [usize])
    requires below { Below (length head.old) near.now }
    requires below_2 { Below (length counts.old) near.now }
    requires next_len { length next.old ≡ length near.now }
    ensures linked { Linked near.now head.new next.new }
    ensures counted { Counted (length counts.old) near.now counts.new }
{
    link_points(near, head, next);
    count_ends(near, counts);
}

// The start order, with its positions, as the best so far. Answers its crossings; the side has the segments below each point. What the
// caller has to know of afterwards comes as slices of its own.
fn start_drawing(
    sketch: &Sketch<'_>,
    side: &Side<'_>,
    first: &mut [usize],
    order: &mut [usize],
    pos: &mut [usize],
    work: &mut Work<'_>,
    saved: &mut [usize],
) -> usize
    requires far { side.now.far.now ≡ sketch.now.lower.now }
    requires linked { Linked sketch.now.upper.now side.now.head.now side.now.next.now }
    requires row_in_bounds { length sketch.now.row.now ≤ length side.now.head.now }
    requires roomy { Roomy sketch.now.row.now first.old order.old pos.old saved.old }
    requires scratch { Scratch sketch.now.row.now work.old.totals.now work.old.moved.now }
    requires first_in_bounds { rows_held first.old ≤ length work.old.totals.now }
    ensures improving { Improving sketch.now.row.now sketch.now.upper.now sketch.now.lower.now first.new pass_count downward order.new pos.new saved.new result }
    ensures work_kept { WorkKept work.old work.new }
{
    let count = first.len() - 1;
    start_order(sketch.row, count, order, first, work.totals, work.moved);
    place_all(order, first, pos);
    copy_all(order, saved);
    let rows = Rows { order, first, pos };
    count_crossings(&rows, side, work.moved, work.totals)
}
