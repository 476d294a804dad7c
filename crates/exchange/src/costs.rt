// What an order of a row costs, by a table of the costs of pairs.
ghost use Rattle.std.specs.Prelude.{◌≡◌, ℕ, ◌<◌};
ghost use Rattle.exchange.specs.Limits.{max_row_points};
ghost use Rattle.exchange.specs.Costs.{cost_with, cost_of, cheaper, floor_of};
ghost use Rattle.exchange.specs.Tables.{cost_in, cost_limit, PairCosts, RowPoints};

use crate::limits::MAX_ROW_POINTS;

// The costs of pairs: a line for the left point, and an entry in it for the right one.
#[derive(Clone, Copy)]
pub struct Costs<'a> {
    pub table: &'a [usize],
    ghost priced: { PairCosts table.now },
}

impl Costs<'_> {
    // A pair with the left point first.
    fn pair(&self, left: u8, right: u8) -> usize
        requires both { (left < max_row_points) × (right < max_row_points) }
        ensures { result ≡ cost_in self.now.table.now left right }
    {
        self.table[left as usize * MAX_ROW_POINTS + right as usize]
    }

    // A pair in the cheaper of its two orders.
    fn cheaper_pair(&self, x: u8, y: u8) -> usize
        requires both { (x < max_row_points) × (y < max_row_points) }
        ensures { result ≡ cheaper (cost_in self.now.table.now) x y }
    {
        self.pair(x, y).min(self.pair(y, x))
    }

    // The cost of points from left to right.
    pub fn add_up(&self, row: &[u8]) -> usize
        requires { RowPoints row.now }
        ensures { result ≡ cost_of (cost_in self.now.table.now) row.now }
    {
        add_pairs(row, |x, y| self.pair(x, y))
    }

    // The floor of a row.
    pub fn find_floor(&self, row: &[u8]) -> usize
        requires { RowPoints row.now }
        ensures { result ≡ floor_of (cost_in self.now.table.now) row.now }
    {
        add_pairs(row, |x, y| self.cheaper_pair(x, y))
    }
}

// Each pair of a row, the left point first, by what a closure says that it costs.
fn add_pairs<F: Fn(u8, u8) -> usize>(row: &[u8], cost: F) -> usize
    ghost c: { ℕ → ℕ → ℕ }
    requires row_points { RowPoints row.now }
    requires callable { (x y : ℕ) → x < max_row_points → y < max_row_points → F.pre cost x y }
    requires computes { (x y r : ℕ) → x < max_row_points → y < max_row_points → F.post cost x y r → r ≡ c x y }
    requires low { (x y : ℕ) → c x y < cost_limit }
    ensures { result ≡ cost_of c row.now }
{
    let mut sum = 0;
    for (a, &x) in row.iter().enumerate() {
        sum += add_right(x, &row[a + 1..], &cost);
    }
    sum
}

// A point with those on its right.
fn add_right<F: Fn(u8, u8) -> usize>(x: u8, right: &[u8], cost: &F) -> usize
    ghost c: { ℕ → ℕ → ℕ }
    requires x_bound { x < max_row_points }
    requires row_points { RowPoints right.now }
    requires callable { (x y : ℕ) → x < max_row_points → y < max_row_points → F.pre cost.now x y }
    requires computes { (x y r : ℕ) → x < max_row_points → y < max_row_points → F.post cost.now x y r → r ≡ c x y }
    requires low { (x y : ℕ) → c x y < cost_limit }
    ensures { result ≡ cost_with c x right.now }
{
    let mut sum = 0;
    for &y in right {
        sum += cost(x, y);
    }
    sum
}
