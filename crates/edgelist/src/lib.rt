// The record form of the row finder: the best rows of edges that are lent, in a buffer that is lent.
//
// Every call takes any input, ends, and has no condition. Its contract puts its answer, told in numbers, and its buffer equal to what a
// definition of specs/Calls.antt makes of the input, and says of the rows of an answer that they are the best.
#![tactic(auto)]

mod lent;

ghost use Rattle.std.specs.Prelude.{◌≡◌};
ghost use Rattle.flatten.specs.Records.{records_of};
ghost use Rattle.rows.specs.Answers.{rows_numbers};
ghost use Rattle.edgelist.specs.Calls.{record_call, RecordsBest};

use crate::lent::answer_lent;
use flatten::numbers::{FIELDS, flatten_numbers};
use flatten::records::flatten_records;
use graph::Edge;
use outcome::Refusal;
use rows::types::Row;

// The rows of n steps and of edges that are lent as a list of records, to the first entries of a buffer, one a step. Refuses too many
// steps (4), too many edges (8), each edge in turn by its ends (9), then by its gap and weight (6), then a loop (11), then a short
// buffer (13). Of a list longer than the limit no record is read.
pub fn find_rows_of_records(n: usize, records: &[Edge], rows: &mut [Row]) -> Result<(), Refusal>
    ensures result_value { rows_numbers result ≡ (record_call n records.now rows.old).numbers }
    ensures rows_after { rows.new ≡ (record_call n records.now rows.old).rows }
    ensures records_best { RecordsBest n records.now (rows_numbers result) rows.new }
{
    answer_lent(n, records.len(), &flatten_records(records), rows)
}

// The same for edges that are lent as a list of numbers, four to an edge: from, to, gap, weight; fewer than four left over are no edge.
pub fn find_rows_of_numbers(n: usize, numbers: &[usize], rows: &mut [Row]) -> Result<(), Refusal>
    ensures result_value { rows_numbers result ≡ (record_call n (records_of numbers.now) rows.old).numbers }
    ensures rows_after { rows.new ≡ (record_call n (records_of numbers.now) rows.old).rows }
    ensures records_best { RecordsBest n (records_of numbers.now) (rows_numbers result) rows.new }
{
    answer_lent(n, numbers.len() / FIELDS, &flatten_numbers(numbers), rows)
}
