// Numbers in their fewest bytes, put at the end of a page.
ghost use Rattle.std.specs.Prelude.{◌≡◌, ◌++◌, ◌+◌, ◌≤◌, ◌<◌, length};
ghost use Rattle.arrayvec.specs.ArrayVec.{array_vec_len};
ghost use Rattle.encoding.specs.Limits.{number_limit};
ghost use Rattle.encoding.specs.Shortest.{short_number};

use arrayvec::ArrayVec;

// A number of a table, of which none needs a third byte.
#[tactic(auto, using(crate::proofs::ShortLaws::short_one, crate::proofs::ShortLaws::short_two))]
pub fn write_number<const CAP: usize>(v: usize, page: &mut ArrayVec<u8, CAP>)
    requires v_lt_number_limit { v < number_limit }
    requires room { array_vec_len page.old + length (short_number v) ≤ CAP }
    ensures { page.new.items ≡ page.old.items ++ short_number v }
{
    if v < 0x80 {
        page.push(v as u8);
        return;
    }
    page.push((v % 0x80 + 0x80) as u8);
    page.push((v / 0x80) as u8);
}

// Two numbers.
pub fn write_pair<const CAP: usize>(a: usize, b: usize, page: &mut ArrayVec<u8, CAP>)
    requires a_lt_number_limit { a < number_limit }
    requires b_lt_number_limit { b < number_limit }
    requires room { array_vec_len page.old + length (short_number a ++ short_number b) ≤ CAP }
    ensures { page.new.items ≡ page.old.items ++ short_number a ++ short_number b }
{
    write_number(a, page);
    write_number(b, page);
}
