// An order held against the best so far.
#![tactic(auto)]

ghost use Rattle.std.specs.Prelude.{◌≡◌, length};
ghost use Rattle.crossings.specs.Placing.{Countable};
ghost use Rattle.judging.specs.Judging.{Judged};

use buffers::keep_fewer;
use crossings::{Rows, count_crossings};
use points::lists::Side;

// The order kept if it has fewer crossings than the best so far. Answers the fewest.
pub fn keep_better(
    rows: &Rows<'_>,
    side: &Side<'_>,
    counts: &mut [usize],
    blocks: &mut [usize],
    saved: &mut [usize],
    fewest: usize,
) -> usize
    requires countable { Countable rows.now.order.now rows.now.first.now side.now.head.now side.now.next.now side.now.far.now rows.now.pos.now counts.old blocks.old }
    requires saved_len { length saved.old ≡ length rows.now.order.now }
    ensures { Judged rows.now.first.now side.now.head.now side.now.next.now side.now.far.now rows.now.order.now rows.now.pos.now saved.old fewest saved.new result }
{
    let crossings = count_crossings(rows, side, counts, blocks);
    keep_fewer(rows.order, crossings, saved, fewest)
}
