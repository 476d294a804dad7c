// The passes over a drawing, and the first order with fewest crossings among theirs and the start.
#![tactic(auto)]

mod lent;

ghost use Rattle.std.specs.Prelude.{◌≡◌, length};
ghost use Rattle.passes.specs.Order.{downward};
ghost use Rattle.passes.specs.Kept.{WorkKept};
ghost use Rattle.fewest.specs.Fewest.{pass_count};
ghost use Rattle.fewest.specs.Drafts.{best_in, Scratch, Passable, Improving, Bettered, DrawingHeld};
ghost use Rattle.fewest.specs.Kept.{DraftKept};

pub use crate::lent::{Draft, Sides, Sketch};
use buffers::copy_all;
use crossings::Rows;
use judging::keep_better;
use passes::{Work, pass_down, pass_up};

// A pass down and a pass up, as often.
const PASS_PAIRS: usize = 4;

// The passes, down and up in turn, each followed by a look at the crossings. Answers the fewest. Where a pass down and a pass up leave the
// order as it was before them, so do all that would follow, and these are left out.
pub fn improve_drawing(
    sides: &Sides<'_>,
    draft: &mut Draft<'_>,
    work: &mut Work<'_>,
    saved: &mut [usize],
    crossings: usize,
) -> usize
    requires improving { Improving sides.now.row.now sides.now.above.far.now sides.now.below.far.now draft.old.first.now pass_count downward draft.old.order.now draft.old.pos.now saved.old crossings }
    requires scratch { Scratch sides.now.row.now work.old.totals.now work.old.moved.now }
    requires before_len { length draft.old.before.now ≡ length draft.old.order.now }
    ensures held { DrawingHeld (best_in sides.now.row.now sides.now.above.far.now sides.now.below.far.now draft.old.first.now) saved.new result }
    ensures first_stays { draft.new.first.now ≡ draft.old.first.now }
    ensures draft_kept { DraftKept draft.old draft.new }
    ensures work_kept { WorkKept work.old work.new }
{
    let first = &mut *draft.first;
    let order = &mut *draft.order;
    let before = &mut *draft.before;
    let pos = &mut *draft.pos;
    let mut fewest = crossings;
    for _ in 0..PASS_PAIRS {
        copy_all(order, before);
        fewest = pass_both(sides, first, order, pos, work, saved, fewest);
        if *before == *order {
            return fewest;
        }
    }
    fewest
}

// A pass down and a pass up. Answers the fewest crossings so far. The order, its positions and the best order come as slices of their own,
// since the caller has to know what they hold afterwards.
fn pass_both(
    sides: &Sides<'_>,
    first: &[usize],
    order: &mut [usize],
    pos: &mut [usize],
    work: &mut Work<'_>,
    saved: &mut [usize],
    fewest: usize,
) -> usize
    requires { Passable sides.now.row.now first.now order.old pos.old work.old.totals.now work.old.moved.now saved.old }
    ensures bettered { Bettered sides.now.row.now sides.now.above.far.now sides.now.below.far.now first.now order.old pos.old saved.old fewest order.new pos.new saved.new result }
    ensures work_kept { WorkKept work.old work.new }
{
    pass_down(&sides.above, first, order, pos, work);
    let down = Rows { order, first, pos };
    let kept = keep_better(&down, &sides.below, work.moved, work.totals, saved, fewest);
    pass_up(&sides.below, first, order, pos, work);
    let up = Rows { order, first, pos };
    keep_better(&up, &sides.below, work.moved, work.totals, saved, kept)
}
