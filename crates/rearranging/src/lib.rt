// The best order of one row of a table's chart, as far as a number of tries goes, in a buffer that is lent.
//
// The call takes any input, ends, and has no condition. Its contract puts its answer, told in numbers, and the buffer equal to what a
// definition of specs/Calls.antt makes of the input, and says of an answer what makes it one: an order of the row, no order of which is below
// the floor, none worse for more tries, and the best of all where all were looked at.
#![tactic(auto)]

mod arrange;

ghost use Rattle.std.specs.Prelude.{◌≡◌};
ghost use Rattle.rearranging.specs.Calls.{order_call, order_numbers, OrderShown};

use crate::arrange::arrange_row;
use ordering::chart::merge_ends;
use ordering::chart_table;
use outcome::Refusal;
use points::Layout;

// The numbers that go with the order of a row: of its points, its crossings with the row above, and a floor that no order of it goes below.
#[derive(Clone, Copy, Debug, PartialEq, Eq)]
pub struct RowFigures {
    pub points: usize,
    pub crossings: usize,
    pub floor: usize,
}

// The points of a row of a table's chart in the best order that so many tries find, from left to right, to the first entries of a buffer.
// Refuses as the whole chart does, then a row that no order is looked for, then too many tries, then a buffer with fewer entries than the
// row has points.
pub fn find_order(
    bytes: &[u8],
    row: usize,
    tries: usize,
    order: &mut [u16],
) -> Result<RowFigures, Refusal>
    ensures result_value { order_numbers result ≡ (order_call bytes.now row tries order.old).numbers }
    ensures order_after { order.new ≡ (order_call bytes.now row tries order.old).order }
    ensures order_shown { OrderShown bytes.now row tries (order_numbers result) order.new }
{
    let charted = chart_table(bytes)?;
    if row == 0 || charted.chart.height <= row {
        return Err(Refusal::BadRow);
    }
    let chart = &charted.chart;
    let ends = merge_ends(&charted.table.edges, &charted.turned);
    let layout = Layout {
        rows: &chart.rows,
        from: &ends.from,
        to: &ends.to,
    };
    arrange_row(&layout, &chart.order, row, tries, order)
}
