// Crossings between two neighbouring rows. The upper row's points are taken from left to right: for each segment of a point those of
// earlier points are counted that end right of it, and then the point's segments are counted in. Most end right of all before them, so
// the furthest position counted in is kept.
ghost use Rattle.std.specs.Prelude.{◌*◌, ◌≤◌, ◌<◌, length};
ghost use Rattle.crossings.specs.Tally.{block_size};
ghost use Rattle.crossings.specs.Between.{AllBelow, Pointed, groups, grouped_count, CrossingsOf};
ghost use Rattle.crossings.specs.Placing.{segment_limit};

use crate::tally::{Ends, Tally, raise_list};

// The crossings between a row and the row below: `points` are the upper row's, from left to right, `head` has the list of each point.
// There is a count for each position of a lower end.
pub fn count_between(
    points: &[usize],
    head: &[usize],
    ends: &Ends<'_>,
    counts: &mut [usize],
    blocks: &mut [usize],
) -> usize
    requires pointed { Pointed points.now head.now ends.now.next.now }
    requires all_below { AllBelow (length counts.old) (groups ends.now.lower.now ends.now.pos.now ends.now.next.now head.now points.now) }
    requires counts_len_bound { length counts.old ≤ block_size * length blocks.old }
    requires points_bound { grouped_count (groups ends.now.lower.now ends.now.pos.now ends.now.next.now head.now points.now) < segment_limit }
    ensures { CrossingsOf result (groups ends.now.lower.now ends.now.pos.now ends.now.next.now head.now points.now) }
{
    counts.fill(0);
    blocks.fill(0);
    let mut sum = 0;
    let mut last = 0;
    for &p in points {
        let h = head[p];
        let tally = Tally {
            counts,
            blocks,
            last,
        };
        sum += tally.count_list(ends, h);
        last = raise_list(ends, counts, blocks, last, h);
    }
    sum
}
