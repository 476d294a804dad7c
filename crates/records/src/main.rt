// Reads a step count and edges on standard input, lends the edges to the row finder as a slice of records and prints the rows, or the
// line of the refusal.
#![tactic(auto)]

mod input;

ghost use Rattle.std.specs.Prelude.{◌≡◌};
ghost use Rattle.rows.specs.Answers.{rows_numbers};
ghost use Rattle.edgelist.specs.Calls.{record_call, RecordsBest};
ghost use Rattle.records.specs.Input.{steps_in, edges_in};

use crate::input::{MAX_READ, read_edges, word_at};
use edgelist::find_rows_of_records;
use intake::read_full;
use outcome::Refusal;
use rows::types::Row;
use std::io;

// The most entries of a buffer that can be lent.
const MAX_ENTRIES: usize = 255;

// The rows of the first n entries of a buffer. As many as there are steps, of a buffer of another length.
fn print_rows(rt: &impl Print, rows: &[Row], n: usize) -> io::Result<()> {
    print!(rt; "rows")?;
    for row in rows.iter().take(n) {
        print!(rt; " {row}")?;
    }
    println!(rt; "")
}

// The row finder's answer for the steps and edges that the input says.
fn find_asked(bytes: &[u8], rows: &mut [Row]) -> Result<(), Refusal>
    ensures result_value { rows_numbers result ≡ (record_call (steps_in bytes.now) (edges_in bytes.now) rows.old).numbers }
    ensures rows_after { rows.new ≡ (record_call (steps_in bytes.now) (edges_in bytes.now) rows.old).rows }
    ensures records_best { RecordsBest (steps_in bytes.now) (edges_in bytes.now) (rows_numbers result) rows.new }
{
    find_rows_of_records(word_at(bytes, 0), &read_edges(bytes), rows)
}

// Prints it, for a buffer of as many entries as the input asks for. A slice of rows has no form to print of its own.
fn print_answer(rt: &impl Print, bytes: &[u8], rows: &mut [Row]) -> io::Result<()> {
    let entries = word_at(bytes, 1).min(rows.len());
    let lent = &mut rows[..entries];
    match find_asked(bytes, lent) {
        Ok(()) => print_rows(rt, lent, word_at(bytes, 0)),
        Err(f) => println!(rt; "refused {f}"),
    }
}

fn main(rt: HostRuntime) -> io::Result<()> {
    let mut bytes = [0u8; MAX_READ];
    let mut rows = [0u16; MAX_ENTRIES];
    let len = read_full(&mut rt.stdin(), &mut bytes)?;
    print_answer(&rt, &bytes[..len], &mut rows)
}
