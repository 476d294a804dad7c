// The calls for C. Slices are a pointer and a length; answers are packed into one word, beside which a stroke has its two floats. Each
// contract says what the header's functions read out of the word, in the numbers that the call tells, which word it is, and what the lent
// buffers hold at the end. All of it is in the specs of `words` and of the layers below. Each call is one match of an answer to its word, as
// the C interface has it.
#![tactic(auto)]

ghost use Rattle.std.specs.Prelude.{◌≡◌};
ghost use Rattle.queries.specs.Calls.{counts_call, name_call};
ghost use Rattle.table.specs.declared.rule.Rule.TheVariants.{Old};
ghost use Rattle.writing.specs.Calls.{write_call, write_call_by};
ghost use Rattle.flatten.specs.Records.{records_of};
ghost use Rattle.edgelist.specs.Calls.{record_call, RecordsBest};
ghost use Rattle.layering.specs.Calls.{rows_call, TableBest};
ghost use Rattle.ordering.specs.Calls.{chart_call, ChartBest};
ghost use Rattle.rearranging.specs.Calls.{order_call, OrderShown};
ghost use Rattle.coordinates.specs.Calls.{xs_call, XsBest};
ghost use Rattle.strokes.specs.Calls.{stroke_call};
ghost use Rattle.plain.specs.Plain.{stroke_numbers, plain_answer, PlainExact};
ghost use Rattle.words.specs.Words.{counts_read, counts_word, name_read, name_word, written_read, points_read, stroke_read, done_read, done_word, chart_read, chart_word, order_read, order_word};

use plain::{PlainStroke, plain_answer};
use rows::types::Row;
use table::rule::Rule;
use words::{chart_word, counts_word, name_word, order_word, refusal_word, written_word};

// The steps and the edges of a table.
#[unsafe(no_mangle)]
pub extern "C" fn yuvatondro_counts(table: &[u8]) -> u64
    ensures result_value { counts_read result ≡ counts_call table.now }
    ensures value { result ≡ counts_word (counts_call table.now) }
{
    match queries::count_table(table) {
        Ok(c) => counts_word(c.steps, c.edges),
        Err(f) => refusal_word(f),
    }
}

// Where the name of a step stands in the table.
#[unsafe(no_mangle)]
pub extern "C" fn yuvatondro_name(table: &[u8], step: usize) -> u64
    ensures result_value { name_read result ≡ name_call table.now step }
    ensures value { result ≡ name_word (name_call table.now step) }
{
    match queries::find_name(table, step) {
        Ok(name) => name_word(name.start, name.len),
        Err(f) => refusal_word(f),
    }
}

// The table written back in its fewest bytes, to a lent buffer.
#[unsafe(no_mangle)]
pub extern "C" fn yuvatondro_write(table: &[u8], out: &mut [u8]) -> u64
    ensures result_value { written_read result ≡ (write_call table.now out.old).numbers }
    ensures value { result ≡ done_word (write_call table.now out.old).numbers }
    ensures out_after { out.new ≡ (write_call table.now out.old).out }
{
    write_by(Rule::Shortest, table, out)
}

// The same for a stored table, which is read by the old rule.
#[unsafe(no_mangle)]
pub extern "C" fn yuvatondro_convert(table: &[u8], out: &mut [u8]) -> u64
    ensures result_value { written_read result ≡ (write_call_by Old table.now out.old).numbers }
    ensures value { result ≡ done_word (write_call_by Old table.now out.old).numbers }
    ensures out_after { out.new ≡ (write_call_by Old table.now out.old).out }
{
    write_by(Rule::Old, table, out)
}

// A table that is read by a rule, written back.
fn write_by(rule: Rule, table: &[u8], out: &mut [u8]) -> u64
    ensures result_value { written_read result ≡ (write_call_by rule table.now out.old).numbers }
    ensures value { result ≡ done_word (write_call_by rule table.now out.old).numbers }
    ensures out_after { out.new ≡ (write_call_by rule table.now out.old).out }
{
    match writing::write_table_by(rule, table, out) {
        Ok(len) => written_word(len),
        Err(f) => refusal_word(f),
    }
}

// The rows of a table to a lent buffer, one entry a step.
#[unsafe(no_mangle)]
pub extern "C" fn yuvatondro_rows(table: &[u8], rows: &mut [Row]) -> u64
    ensures result_value { done_read result ≡ (rows_call table.now rows.old).numbers }
    ensures value { result ≡ done_word (rows_call table.now rows.old).numbers }
    ensures rows_after { rows.new ≡ (rows_call table.now rows.old).rows }
    ensures table_best { TableBest table.now (done_read result) rows.new }
{
    match layering::find_rows(table, rows) {
        Ok(()) => 0,
        Err(f) => refusal_word(f),
    }
}

// The same for edges that are lent as numbers, four to an edge.
#[unsafe(no_mangle)]
pub extern "C" fn yuvatondro_records(steps: usize, records: &[usize], rows: &mut [Row]) -> u64
    ensures result_value { done_read result ≡ (record_call steps (records_of records.now) rows.old).numbers }
    ensures value { result ≡ done_word (record_call steps (records_of records.now) rows.old).numbers }
    ensures rows_after { rows.new ≡ (record_call steps (records_of records.now) rows.old).rows }
    ensures records_best { RecordsBest steps (records_of records.now) (done_read result) rows.new }
{
    match edgelist::find_rows_of_numbers(steps, records, rows) {
        Ok(()) => 0,
        Err(f) => refusal_word(f),
    }
}

// The whole chart of a table: rows as above, and the points row by row to a lent buffer.
#[unsafe(no_mangle)]
pub extern "C" fn yuvatondro_chart(table: &[u8], rows: &mut [Row], order: &mut [u16]) -> u64
    ensures result_value { chart_read result ≡ (chart_call table.now rows.old order.old).numbers }
    ensures value { result ≡ chart_word (chart_call table.now rows.old order.old).numbers }
    ensures rows_after { rows.new ≡ (chart_call table.now rows.old order.old).rows }
    ensures order_after { order.new ≡ (chart_call table.now rows.old order.old).order }
    ensures chart_best { ChartBest table.now (chart_read result) rows.new }
{
    match ordering::draw_chart(table, rows, order) {
        Ok(figures) => chart_word(figures.points, figures.total, figures.crossings),
        Err(f) => refusal_word(f),
    }
}

// The points of one row of a table's chart in the best order that so many tries find, to a lent buffer.
#[unsafe(no_mangle)]
pub extern "C" fn yuvatondro_row_order(
    table: &[u8],
    row: usize,
    tries: usize,
    order: &mut [u16],
) -> u64
    ensures result_value { order_read result ≡ (order_call table.now row tries order.old).numbers }
    ensures value { result ≡ order_word (order_call table.now row tries order.old).numbers }
    ensures order_after { order.new ≡ (order_call table.now row tries order.old).order }
    ensures order_shown { OrderShown table.now row tries (order_read result) order.new }
{
    match rearranging::find_order(table, row, tries, order) {
        Ok(figures) => order_word(figures.points, figures.crossings, figures.floor),
        Err(f) => refusal_word(f),
    }
}

// The x of each point of a table's chart, by the point's number, to a lent buffer.
#[unsafe(no_mangle)]
pub extern "C" fn yuvatondro_xs(table: &[u8], xs: &mut [u16]) -> u64
    ensures result_value { points_read result ≡ (xs_call table.now xs.old).numbers }
    ensures value { result ≡ done_word (xs_call table.now xs.old).numbers }
    ensures xs_after { xs.new ≡ (xs_call table.now xs.old).xs }
    ensures xs_best { XsBest table.now (points_read result) xs.new }
{
    match coordinates::find_xs(table, xs) {
        Ok(points) => written_word(points),
        Err(f) => refusal_word(f),
    }
}

// The stroke at an index of a table's chart, in plain numbers.
#[unsafe(no_mangle)]
pub extern "C" fn yuvatondro_stroke_at(table: &[u8], index: usize) -> PlainStroke
    ensures answer_value { stroke_read result.answer ≡ stroke_numbers (stroke_call table.now index) }
    ensures value { result ≡ plain_answer (stroke_call table.now index) }
    ensures plain_exact { PlainExact table.now index result }
{
    plain_answer(strokes::find_stroke(table, index))
}
