// The orderer: the whole chart of a table, its rows and the order of its points, in buffers that are lent.
//
// The calls take any input, end, and have no condition. Their contracts put the answer, told in numbers, and both buffers equal to what a
// definition of specs/Calls.antt makes of the input, and say of the rows of an answer that they are the best and of its total that it is
// theirs.
#![tactic(auto)]

pub mod chart;
mod store;
pub mod types;

ghost use Rattle.std.specs.Prelude.{◌≡◌};
ghost use Rattle.ordering.specs.Calls.{chart_call, chart_numbers, ChartBest, draw_call, draw_end};
ghost use Rattle.ordering.specs.Charting.{TableFound, chart_in};

use crate::chart::draw_edges;
use crate::store::hand_out_chart;
pub use crate::types::Figures;
use crate::types::{TableChart, Uncharted};
use layering::place_table;
use layering::types::TableRows;
use outcome::Refusal;
use rows::types::Row;

// A table's chart: its rows to the first entries of one buffer, one a step, and the points in their order to those of the other, one
// a point. Refuses as the rows call does, then too many points, then a buffer with fewer entries than it is to get.
pub fn draw_chart(bytes: &[u8], rows: &mut [Row], order: &mut [u16]) -> Result<Figures, Refusal>
    ensures result_value { chart_numbers result ≡ (chart_call bytes.now rows.old order.old).numbers }
    ensures rows_after { rows.new ≡ (chart_call bytes.now rows.old order.old).rows }
    ensures order_after { order.new ≡ (chart_call bytes.now rows.old order.old).order }
    ensures chart_best { ChartBest bytes.now (chart_numbers result) rows.new }
{
    let charted = chart_table(bytes)?;
    hand_out_chart(&charted.chart, rows, order)
}

// The table that the bytes write down, which of its edges are turned, and its chart: what a layer above builds on. Refuses as the rows
// call does, then too many points, and gives the table and what is turned as `place_table` leaves them.
pub fn chart_table(bytes: &[u8]) -> Result<TableChart, Uncharted>
    ensures result_value { draw_end result ≡ draw_call bytes.now }
    ensures table_found { TableFound bytes.now (chart_in result) }
{
    let TableRows {
        table,
        turned,
        found,
    } = place_table(bytes)?;
    match draw_edges(&table.edges, &turned, found) {
        Ok(chart) => Ok(TableChart {
            table,
            turned,
            chart,
        }),
        Err(refusal) => Err(Uncharted {
            refusal,
            table: Some(table),
            turned,
        }),
    }
}
