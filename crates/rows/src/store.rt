// Rows handed out: what was found becomes the content of a lent buffer.
ghost use Rattle.outcome.specs.Refusal.{done};
ghost use Rattle.rows.specs.Placed.{RowsHandedOut};

use crate::types::{Row, RowsFound};
use buffers::store_u16;
use outcome::Refusal;

// The rows that were found in the buffer, or no change where it is too short.
pub fn hand_out(found: &RowsFound, out: &mut [Row]) -> Result<(), Refusal>
    ensures { RowsHandedOut (done found.now.rows.items) out.old out.new result }
{
    let n = found.rows.len();
    if out.len() < n {
        return Err(Refusal::ShortBuffer);
    }
    store_u16(&found.rows, n, out);
    Ok(())
}
