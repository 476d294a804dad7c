// The row finder for a table: the best rows of its edges as they are kept or turned, in a buffer that is lent.
//
// Every call takes any input, ends, and has no condition. Its contract puts its answer, told in numbers, and its buffer equal to what a
// definition of specs/Calls.antt makes of the input, and says of the rows of an answer that they are the best.
#![tactic(auto)]

mod place;
mod turn;
pub mod types;

ghost use Rattle.std.specs.Prelude.{◌≡◌};
ghost use Rattle.rows.specs.Answers.{rows_numbers};
ghost use Rattle.layering.specs.Calls.{rows_call, TableBest, place_call, place_end};

use crate::place::{RankedEdges, rank_edges};
use crate::types::{TableRows, Unplaced};
use outcome::Refusal;
use reading::read_table;
use rows::store::hand_out;
use rows::types::Row;

// A table's rows to the first entries of a buffer, one a step. Refuses as the reader does, then by a loop of must edges with its lowest
// step, then a buffer with fewer entries than steps.
pub fn find_rows(bytes: &[u8], rows: &mut [Row]) -> Result<(), Refusal>
    ensures result_value { rows_numbers result ≡ (rows_call bytes.now rows.old).numbers }
    ensures rows_after { rows.new ≡ (rows_call bytes.now rows.old).rows }
    ensures table_best { TableBest bytes.now (rows_numbers result) rows.new }
{
    let table = read_table(bytes)?;
    let ranked = rank_edges(&table.edges, table.steps.len())?;
    hand_out(&ranked.found, rows)
}

// The table that the bytes write down, which of its edges are turned, its rows and their total: what a layer above builds on. Refuses as
// the reader does, then by a loop of must edges, and gives the table with that.
pub fn place_table(bytes: &[u8]) -> Result<TableRows, Unplaced>
    ensures result_value { place_end result ≡ place_call bytes.now }
    ensures table_best { TableBest bytes.now (place_end result).numbers (place_end result).rows }
{
    let table = read_table(bytes)?;
    match rank_edges(&table.edges, table.steps.len()) {
        Ok(RankedEdges { turned, found }) => Ok(TableRows {
            table,
            turned,
            found,
        }),
        Err(refusal) => Err(Unplaced {
            refusal,
            table: Some(table),
        }),
    }
}
