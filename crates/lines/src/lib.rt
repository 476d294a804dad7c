// The lines of a chart and of a refusal, put at the end of a page that has room for them.
#![tactic(auto)]

pub mod dummies;
pub mod sheet;

ghost use Rattle.std.specs.Prelude.{◌≡◌, ◌++◌, map, ◌+◌, ◌≤◌, length};
ghost use Rattle.arrayvec.specs.ArrayVec.{array_vec_len};
ghost use Rattle.labels.specs.Text.{decimal};
ghost use Rattle.lines.specs.Lines.{line, refusal_text};

use arrayvec::ArrayVec;
use labels::text::{put_fields, put_text};
use outcome::Refusal;

// The line of a refusal: its number, and for a loop the step.
pub fn put_refusal<const CAP: usize>(f: Refusal, page: &mut ArrayVec<u8, CAP>)
    requires room { array_vec_len page.old + length (refusal_text f) ≤ CAP }
    ensures { page.new.items ≡ page.old.items ++ refusal_text f }
{
    let number = f.number();
    match f {
        Refusal::Loop(step) => put_line(b"refused", &[number, step], page),
        _ => put_line(b"refused", &[number], page),
    }
}

// A word and some numbers.
pub fn put_line<const CAP: usize>(word: &[u8], values: &[usize], page: &mut ArrayVec<u8, CAP>)
    requires room { array_vec_len page.old + length (line word.now (map decimal values.now)) ≤ CAP }
    ensures { page.new.items ≡ page.old.items ++ line word.now (map decimal values.now) }
{
    put_text(word, page);
    put_fields(values, page);
    page.push(b'\n');
}
