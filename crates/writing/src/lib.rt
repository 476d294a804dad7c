// The writer: a table that was read, written back in its fewest bytes.
//
// The calls take any input, end, and have no condition. Their contracts put the answer, told in numbers, and the buffer equal to what a
// definition of specs/Calls.antt makes of the input.
//
// That there is room stays a clause: it is what the page has at that moment.
#![tactic(auto)]

pub mod limits;

ghost use Rattle.std.specs.Prelude.{◌≡◌, ◌++◌, ◌+◌, ◌≤◌};
ghost use Rattle.outcome.specs.Refusal.{done, told, answered, bare};
ghost use Rattle.table.specs.Calls.{contents_in};
ghost use Rattle.table.specs.Fair.{Fair};
ghost use Rattle.arrayvec.specs.ArrayVec.{array_vec_len};
ghost use Rattle.encoding.specs.Limits.{max_shortest};
ghost use Rattle.encoding.specs.Said.{said};
ghost use Rattle.encoding.specs.Shortest.{shortest};
ghost use Rattle.writing.specs.Calls.{shortened_by, text_of, write_numbers, write_end, write_call, write_call_by};

use crate::limits::MAX_SHORTEST;
use arrayvec::ArrayVec;
use encoding::edge::{edition_for, write_edges};
use encoding::number::write_number;
use encoding::step::write_steps;
use outcome::Refusal;
use reading::read_table_by;
use table::rule::Rule;
use table::types::Table;

// What a table says in the fewest bytes, which are the first of the buffer: how many they are, or why there are none. Refuses as the
// reader does, and then a buffer that is too short. No shortest table has more than MAX_SHORTEST bytes, and none has more than the table
// that it is made from.
pub fn write_table(bytes: &[u8], out: &mut [u8]) -> Result<usize, Refusal>
    ensures result_value { write_numbers result ≡ (write_call bytes.now out.old).numbers }
    ensures out_after { out.new ≡ (write_call bytes.now out.old).out }
{
    write_table_by(Rule::Shortest, bytes, out)
}

// The same for a table that is read by a rule: by the old one, a stored table is converted.
pub fn write_table_by(rule: Rule, bytes: &[u8], out: &mut [u8]) -> Result<usize, Refusal>
    ensures result_value { write_numbers result ≡ (write_call_by rule bytes.now out.old).numbers }
    ensures out_after { out.new ≡ (write_call_by rule bytes.now out.old).out }
{
    let mut page = ArrayVec::<u8, MAX_SHORTEST>::new();
    write_page(rule, bytes, &mut page)?;
    fit_text(&page, out)
}

// The same at the end of a page that has room for any shortest table. A refusal leaves the page as it was.
pub fn write_page<const CAP: usize>(
    rule: Rule,
    bytes: &[u8],
    page: &mut ArrayVec<u8, CAP>,
) -> Result<(), Refusal>
    requires room { array_vec_len page.old + max_shortest ≤ CAP }
    ensures result_value { answered bare result ≡ told bare (shortened_by rule bytes.now) }
    ensures page_after { page.new.items ≡ page.old.items ++ text_of (shortened_by rule bytes.now) }
{
    let table = read_table_by(rule, bytes)?;
    put_table(bytes, &table, page);
    Ok(())
}

// Bytes that were made on a page, to a lent buffer that has room for them.
// A buffer that is too short stays as it was, so its length is asked first.
pub fn fit_text(text: &[u8], out: &mut [u8]) -> Result<usize, Refusal>
    ensures result_value { write_numbers result ≡ (write_end (done text.now) out.old).numbers }
    ensures out_after { out.new ≡ (write_end (done text.now) out.old).out }
{
    let len = text.len();
    if out.len() < len {
        return Err(Refusal::ShortBuffer);
    }
    out[..len].copy_from_slice(text);
    Ok(len)
}

// The edition, the steps and the edges.
fn put_table<const CAP: usize>(bytes: &[u8], table: &Table, page: &mut ArrayVec<u8, CAP>)
    requires fair { Fair bytes.now (contents_in table.now) }
    requires room { array_vec_len page.old + max_shortest ≤ CAP }
    ensures { page.new.items ≡ page.old.items ++ shortest (said bytes.now (contents_in table.now)) }
{
    let edition = edition_for(&table.edges);
    write_number(edition, page);
    write_steps(bytes, &table.steps, page);
    write_edges(&table.edges, edition, page);
}
