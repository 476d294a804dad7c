// What is done to lent slices below all layers: entries copied to another or to the front of one, numbers stored in a buffer of narrower ones,
// and of two lists the better one kept.
#![tactic(auto)]

mod keeping;

ghost use Rattle.std.specs.Prelude.{◌≡◌, ◌++◌, ℕ, ◌≤◌, ◌<◌, length, take, drop};
ghost use Rattle.graph.specs.Rows.{at};
ghost use Rattle.buffers.specs.Written.{Stored};

pub use crate::keeping::keep_fewer;

// Every entry copied to a slice as long. By a loop, which calls nothing: `copy_from_slice` between slices of which it isn't known that they
// lie apart calls `memmove`, and a host without a C library has to bring it.
pub fn copy_all<T: Copy>(values: &[T], out: &mut [T])
    requires { length out.old ≡ length values.now }
    ensures { out.new ≡ values.now }
{
    for (i, &value) in values.iter().enumerate() {
        out[i] = value;
    }
}

// Every entry copied to the front of a slice. Answers how many they are.
// It is `copy_from_slice` with the number of entries, from which the layout of rows goes on.
pub fn copy_front(values: &[usize], out: &mut [usize]) -> usize
    requires { length values.now ≤ length out.old }
    ensures { Stored out.old 0 values.now out.new result }
{
    out[..values.len()].copy_from_slice(values);
    values.len()
}

// The first n numbers put at the front of a buffer of 16-bit numbers.
// By index: of a loop over `iter_mut` beside another slice nothing is known of what it wrote; both slices are longer than n.
pub fn store_u16(values: &[usize], n: usize, out: &mut [u16])
    requires n_in_bounds { n ≤ length values.now }
    requires n_in_bounds_2 { n ≤ length out.old }
    requires by_index { (i : ℕ) → i < n → at values.now i < 0x10000 }
    ensures { out.new ≡ take n values.now ++ drop n out.old }
{
    for (i, &value) in values[..n].iter().enumerate() {
        out[i] = value as u16;
    }
}
