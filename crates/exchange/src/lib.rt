// The best order of one row, as far as a number of tries goes: of the present order and the next ones in dictionary order the first
// with fewest crossings, and a floor that no order of the row goes below.
//
// A point of the row is its present position. The crossings of pairs come in a table: what stands at i * MAX_ROW_POINTS + j are those of i
// and j where i stands left of j.
//
// That a row has few points stays a clause: it is about the bytes of a lent slice, or a number.
#![tactic(auto)]

mod best;
mod costs;
pub mod limits;

ghost use Rattle.std.specs.Prelude.{◌≡◌, ◌≤◌};
ghost use Rattle.graph.specs.Search.{run};
ghost use Rattle.exchange.specs.Limits.{max_row_points};
ghost use Rattle.exchange.specs.Tables.{PairCosts};
ghost use Rattle.exchange.specs.Turns.{RowIs};

use crate::best::find_best;
use crate::costs::Costs;
use crate::limits::MAX_ROW_POINTS;
use arrayvec::ArrayVec;

// The points of the row in their best order; its crossings; and the floor.
#[derive(Drop)]
pub struct RowFound {
    pub order: ArrayVec<u8, MAX_ROW_POINTS>,
    pub crossings: usize,
    pub floor: usize,
}

// The present order of k points: each where it stands. It makes a list of places, and converts nothing.
fn number_points(k: usize) -> ArrayVec<u8, MAX_ROW_POINTS>
    requires { k ≤ max_row_points }
    ensures { result.items ≡ run 0 k }
{
    let mut order = ArrayVec::new();
    for i in 0..k {
        order.push(i as u8);
    }
    order
}

// The best order of a row of k points, of the present one and as many after it as there are tries.
pub fn order_row(k: usize, costs: &[usize], tries: usize) -> RowFound
    requires k_le_max_row_points { k ≤ max_row_points }
    requires pair_costs { PairCosts costs.now }
    ensures { RowIs costs.now tries k result.order.items result.crossings result.floor }
{
    let costs = Costs { table: costs };
    let mut order = number_points(k);
    let mut best = number_points(k);
    let floor = costs.find_floor(order.as_slice());
    let crossings = find_best(order.as_mut_slice(), &costs, tries, best.as_mut_slice());
    RowFound {
        order: best,
        crossings,
        floor,
    }
}
