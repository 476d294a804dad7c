// Reads a table on standard input and prints its chart, or the line of its refusal. Like `convert` it reads, calls and writes.
#![tactic(auto)]

use intake::read_full;
use listing::limits::MAX_LISTING;
use listing::write_listing;
use std::io;
use table::limits::MAX_INPUT;

// Of a longer input the first bytes are judged, which makes no difference: no accepted table is that long (`printed-whole`). No listing
// is longer than the page (`listing-short`), so that it is never short.
fn main(rt: HostRuntime) -> io::Result<()> {
    let mut input = [0u8; MAX_INPUT];
    let n = read_full(&mut rt.stdin(), &mut input)?;
    let mut page = [0u8; MAX_LISTING];
    match write_listing(&input[..n], &mut page) {
        Ok(len) => rt.write_all(&page[..len]),
        Err(_) => Ok(()),
    }
}
