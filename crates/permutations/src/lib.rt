// The orders of some points, one after another as they stand in a dictionary: from one to the next, in place.
#![tactic(auto)]

ghost use Rattle.std.specs.Prelude.{◌<◌, length, get_or};
ghost use Rattle.permutations.specs.Places.{Pivot, PivotIs, RunIs, Advanced};

// The place behind the last point that has a larger one behind it, or none where the order is the last.
pub fn find_pivot(p: &[u8]) -> Option<usize>
    ensures { PivotIs p.now result }
{
    (1..p.len()).rev().find(|&i| p[i - 1] < p[i])
}

// The last of the places from r on, one after the other, whose points are larger than x.
fn find_larger(p: &[u8], r: usize, x: u8) -> usize
    requires r_in_bounds { r < length p.now }
    requires x_bound { x < get_or p.now r 0 }
    ensures { RunIs p.now r x result }
{
    r + p[r..].iter().take_while(|&&y| x < y).count() - 1
}

// The next order: the point before place r changes places with the smallest larger one behind it, and those from r on are turned
// round.
pub fn advance(p: &mut [u8], r: usize)
    requires { Pivot p.old r }
    ensures { Advanced p.old r p.new }
{
    let j = find_larger(p, r, p[r - 1]);
    p.swap(r - 1, j);
    p[r..].reverse();
}
