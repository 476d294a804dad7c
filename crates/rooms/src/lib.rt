// Room to find an order in.
//
// An array has its size when the code is compiled, so that all that a chart may need would be cleared for every chart. There is room of two
// sizes, and the order of a small chart is found in the smaller.
//
// `Room` stays a clause: it is about lent scratch and the points, which come in several arguments.
#![tactic(auto)]

ghost use Rattle.std.specs.Prelude.{◌≡◌, IsTrue, ◌+◌, ◌<◌, ◌≤◌, length, replicate};
ghost use Rattle.points.specs.Limits.{max_points};
ghost use Rattle.buffers.specs.Lists.{Below};
ghost use Rattle.passes.specs.Laid.{segments_in};
ghost use Rattle.fewest.specs.Fewest.{best_order};
ghost use Rattle.fewest.specs.Drafts.{DrawingHeld};
ghost use Rattle.rooms.specs.Rooms.{small_points, segment_room, Sketched, Room, DrawnIs};

use buffers::store_u16;
use fewest::{Draft, Sketch};
use passes::Work;
use points::limits::MAX_POINTS;
use sweep::{SideRoom, find_fewest};
use table::limits::MAX_EDGES;

// Points for which the smaller room is made.
pub const SMALL_POINTS: usize = 128;

// Each edge has one segment more than dummies.
pub const SMALL_SEGMENTS: usize = SMALL_POINTS + MAX_EDGES;

pub const MAX_SEGMENTS: usize = MAX_POINTS + MAX_EDGES;

// Where each row starts, and where the last ends.
const SMALL_STARTS: usize = SMALL_POINTS + 1;

const MAX_STARTS: usize = MAX_POINTS + 1;

// Of points in `count` rows and the ends of segments: the first order with fewest crossings, to the first entries of a buffer. Answers
// its crossings.
pub fn draw_order(sketch: &Sketch<'_>, count: usize, out: &mut [u16]) -> usize
    requires sketched { Sketched max_points sketch.now.row.now sketch.now.upper.now count }
    requires row_in_bounds { length sketch.now.row.now ≤ length out.old }
    ensures { DrawnIs (best_order count sketch.now.row.now (segments_in sketch.now.upper.now sketch.now.lower.now)) out.old out.new result }
{
    if is_small(sketch, count) {
        return draw_in::<SMALL_POINTS, SMALL_STARTS, SMALL_SEGMENTS>(sketch, count, out);
    }
    draw_in::<MAX_POINTS, MAX_STARTS, MAX_SEGMENTS>(sketch, count, out)
}

// Is the smaller room enough.
fn is_small(sketch: &Sketch<'_>, rows: usize) -> bool
    ensures { IsTrue result → (length sketch.now.row.now ≤ small_points) × (length sketch.now.upper.now ≤ segment_room small_points) × (rows ≤ small_points) }
{
    sketch.row.len() <= SMALL_POINTS && sketch.upper.len() <= SMALL_SEGMENTS && rows <= SMALL_POINTS
}

// An order found in room for so many points, rows and segments, and stored.
fn draw_in<const POINTS: usize, const STARTS: usize, const SEGMENTS: usize>(
    sketch: &Sketch<'_>,
    count: usize,
    out: &mut [u16],
) -> usize
    requires sizes { (0 < POINTS) × (POINTS ≤ max_points) × (STARTS ≡ POINTS + 1) × (SEGMENTS ≡ segment_room POINTS) }
    requires sketched { Sketched POINTS sketch.now.row.now sketch.now.upper.now count }
    requires row_in_bounds { length sketch.now.row.now ≤ length out.old }
    ensures { DrawnIs (best_order count sketch.now.row.now (segments_in sketch.now.upper.now sketch.now.lower.now)) out.old out.new result }
{
    let mut first = [0usize; STARTS];
    let mut order = [0usize; POINTS];
    let mut before = [0usize; POINTS];
    let mut pos = [0usize; POINTS];
    let mut totals = [0usize; POINTS];
    let mut moved = [0usize; POINTS];
    let mut work = Work {
        totals: &mut totals,
        moved: &mut moved,
    };
    let mut saved = [0usize; POINTS];
    let crossings = find_in::<POINTS, SEGMENTS>(
        sketch,
        count,
        &mut first,
        &mut order,
        &mut before,
        &mut pos,
        &mut work,
        &mut saved,
    );
    store_u16(&saved, sketch.row.len(), out);
    crossings
}

// The order found in room that is lent for all but the segments on both sides of the points. What is lent comes as slices of its own, since
// `first` is longer than there are rows.
fn find_in<const POINTS: usize, const SEGMENTS: usize>(
    sketch: &Sketch<'_>,
    count: usize,
    first: &mut [usize],
    order: &mut [usize],
    before: &mut [usize],
    pos: &mut [usize],
    work: &mut Work<'_>,
    saved: &mut [usize],
) -> usize
    requires sizes { (POINTS ≤ max_points) × (SEGMENTS ≡ segment_room POINTS) }
    requires rows_in { Below count sketch.now.row.now }
    requires room { Room (length sketch.now.row.now) (length sketch.now.upper.now) count first.old order.old before.old pos.old work.old.totals.now work.old.moved.now (replicate POINTS 0) (replicate SEGMENTS 0) (replicate POINTS 0) (replicate POINTS 0) (replicate SEGMENTS 0) (replicate POINTS 0) saved.old }
    ensures { DrawingHeld (best_order count sketch.now.row.now (segments_in sketch.now.upper.now sketch.now.lower.now)) saved.new result }
{
    let mut draft = Draft {
        first: &mut first[..count + 1],
        order,
        before,
        pos,
    };
    let mut above_head = [0usize; POINTS];
    let mut above_next = [0usize; SEGMENTS];
    let mut above_counts = [0usize; POINTS];
    let mut above = SideRoom {
        head: &mut above_head,
        next: &mut above_next[..sketch.upper.len()],
        counts: &mut above_counts,
    };
    let mut below_head = [0usize; POINTS];
    let mut below_next = [0usize; SEGMENTS];
    let mut below_counts = [0usize; POINTS];
    let mut below = SideRoom {
        head: &mut below_head,
        next: &mut below_next[..sketch.upper.len()],
        counts: &mut below_counts,
    };
    find_fewest(sketch, &mut draft, &mut above, &mut below, work, saved)
}
