// The best of the orders of a row, from one on.
ghost use Rattle.std.specs.Prelude.{◌≡◌, length};
ghost use Rattle.permutations.specs.Places.{Pivot};
ghost use Rattle.exchange.specs.Tables.{RowPoints, CostIs, Moved};
ghost use Rattle.exchange.specs.Turns.{BestIs};

use crate::costs::Costs;
use buffers::keep_fewer;
use permutations::{advance, find_pivot};

// The next order and its cost. Only the points from the one before place r on move, so the costs of these alone are added up.
fn move_on(order: &mut [u8], costs: &Costs<'_>, r: usize, total: usize) -> usize
    requires cost_is { CostIs order.old costs.now.table.now total }
    requires pivot { Pivot order.old r }
    ensures { Moved order.old costs.now.table.now order.new result }
{
    let before = costs.add_up(&order[r - 1..]);
    advance(order, r);
    let after = costs.add_up(&order[r - 1..]);
    total + after - before
}

// The best order of a row, of the present one and as many after it as there are tries, goes to `saved`; the answer is its cost.
pub fn find_best(order: &mut [u8], costs: &Costs<'_>, tries: usize, saved: &mut [u8]) -> usize
    requires row_points { RowPoints order.old }
    requires saved_len { length saved.old ≡ length order.old }
    ensures { BestIs costs.now.table.now tries order.old saved.new result }
{
    saved.copy_from_slice(order);
    let mut total = costs.add_up(order);
    let mut fewest = total;
    for _ in 0..tries {
        let Some(r) = find_pivot(order) else {
            return fewest;
        };
        total = move_on(order, costs, r, total);
        fewest = keep_fewer(order, total, saved, fewest);
    }
    fewest
}
