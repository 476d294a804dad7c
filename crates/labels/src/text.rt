// Words and numbers put at the end of a page of bytes, which has room for them.
ghost use Rattle.std.specs.Prelude.{◌≡◌, ◌∷◌, ◌++◌, map, ◌+◌, ◌≤◌, length};
ghost use Rattle.arrayvec.specs.ArrayVec.{array_vec_len};
ghost use Rattle.labels.specs.Text.{decimal, blanked};

use arrayvec::ArrayVec;
use itoa::Buffer;

// All bytes of a text. It is the kit's call with the clause that there is room.
pub fn put_text<const CAP: usize>(text: &[u8], page: &mut ArrayVec<u8, CAP>)
    requires room { array_vec_len page.old + length text.now ≤ CAP }
    ensures { page.new.items ≡ page.old.items ++ text.now }
{
    let _fits = page.try_extend_from_slice(text);
}

// A number in decimal.
pub fn put_number<const CAP: usize>(x: usize, page: &mut ArrayVec<u8, CAP>)
    requires room { array_vec_len page.old + length (decimal x) ≤ CAP }
    ensures { page.new.items ≡ page.old.items ++ decimal x }
{
    put_text(Buffer::new().format(x).as_bytes(), page);
}

// A byte and a number.
pub fn put_marked<const CAP: usize>(mark: u8, x: usize, page: &mut ArrayVec<u8, CAP>)
    requires room { array_vec_len page.old + length (mark ∷ decimal x) ≤ CAP }
    ensures { page.new.items ≡ page.old.items ++ mark ∷ decimal x }
{
    page.push(mark);
    put_number(x, page);
}

// Some numbers, each behind a blank.
pub fn put_fields<const CAP: usize>(values: &[usize], page: &mut ArrayVec<u8, CAP>)
    requires room { array_vec_len page.old + length (blanked (map decimal values.now)) ≤ CAP }
    ensures { page.new.items ≡ page.old.items ++ blanked (map decimal values.now) }
{
    for value in values {
        put_marked(b' ', *value, page);
    }
}
