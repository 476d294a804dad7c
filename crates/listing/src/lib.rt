// The printer: the lines of a table's chart, or the line of its refusal, in a buffer that is lent.
//
// The call takes any input, ends, and has no condition. Its contract puts its answer, told in numbers, and the buffer equal to what a
// definition of specs/Calls.antt makes of the input.
#![tactic(auto)]

pub mod limits;
mod page;

ghost use Rattle.std.specs.Prelude.{◌≡◌};
ghost use Rattle.listing.specs.Calls.{listing_call, listing_numbers};

use crate::limits::MAX_LISTING;
use crate::page::print_page;
use arrayvec::ArrayVec;

// The buffer has fewer bytes than these, which there are to be.
#[derive(Clone, Copy, Debug, PartialEq, Eq)]
pub struct TooShort {
    pub needed: usize,
}

// What is printed for a table: how many bytes, which are the first of the buffer. No listing has more than MAX_LISTING bytes.
// A buffer that is too short stays as it was, so its length is asked first.
pub fn write_listing(bytes: &[u8], out: &mut [u8]) -> Result<usize, TooShort>
    ensures result_value { listing_numbers result ≡ (listing_call bytes.now out.old).numbers }
    ensures out_after { out.new ≡ (listing_call bytes.now out.old).out }
{
    let mut page = ArrayVec::<u8, MAX_LISTING>::new();
    print_page(bytes, &mut page);
    let len = page.len();
    if out.len() < len {
        return Err(TooShort { needed: len });
    }
    out[..len].copy_from_slice(&page);
    Ok(len)
}
