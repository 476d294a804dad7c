// The converter: a stored table, with numbers in any form that was ever taken, in its fewest bytes; or the line of its refusal.
//
// The call takes any input, ends, and has no condition. Its contract puts its answer, told in numbers, and the buffer equal to what a
// definition of specs/Calls.antt makes of the input.
#![tactic(auto)]

ghost use Rattle.std.specs.Prelude.{◌≡◌, ◌++◌, ◌+◌, ◌≤◌};
ghost use Rattle.arrayvec.specs.ArrayVec.{array_vec_len};
ghost use Rattle.encoding.specs.Limits.{max_shortest};
ghost use Rattle.writing.specs.Calls.{write_numbers};
ghost use Rattle.converting.specs.Calls.{converted, convert_call};

use arrayvec::ArrayVec;
use lines::put_refusal;
use outcome::Refusal;
use table::rule::Rule;
use writing::limits::MAX_SHORTEST;
use writing::{fit_text, write_page};

// What is written for a stored table, and how many bytes of it; or the buffer is too short, which no buffer of MAX_SHORTEST bytes is.
pub fn convert_table(bytes: &[u8], out: &mut [u8]) -> Result<usize, Refusal>
    ensures result_value { write_numbers result ≡ (convert_call bytes.now out.old).numbers }
    ensures out_after { out.new ≡ (convert_call bytes.now out.old).out }
{
    let mut page = ArrayVec::<u8, MAX_SHORTEST>::new();
    convert_page(bytes, &mut page);
    fit_text(&page, out)
}

// The same at the end of a page that has room for any table.
fn convert_page<const CAP: usize>(bytes: &[u8], page: &mut ArrayVec<u8, CAP>)
    requires room { array_vec_len page.old + max_shortest ≤ CAP }
    ensures { page.new.items ≡ page.old.items ++ converted bytes.now }
{
    match write_page(Rule::Old, bytes, page) {
        Ok(()) => {}
        Err(f) => put_refusal(f, page),
    }
}
