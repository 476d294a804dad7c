// A chart handed out: what was found becomes an answer and the content of two lent buffers.
ghost use Rattle.outcome.specs.Refusal.{done};
ghost use Rattle.ordering.specs.Charting.{charted_by, ChartHandedOut};

use crate::types::{ChartFound, Figures};
use buffers::store_u16;
use outcome::Refusal;
use rows::types::Row;

// The numbers of a chart, with its rows and its order in the buffers, or no change where one is too short.
pub fn hand_out_chart(
    found: &ChartFound,
    rows: &mut [Row],
    order: &mut [u16],
) -> Result<Figures, Refusal>
    ensures { ChartHandedOut (done (charted_by found.now)) rows.old order.old rows.new order.new result }
{
    let n = found.rows.len();
    let points = found.order.len();
    if rows.len() < n {
        return Err(Refusal::ShortBuffer);
    }
    if order.len() < points {
        return Err(Refusal::ShortBuffer);
    }
    store_u16(&found.rows, n, rows);
    order[..points].copy_from_slice(&found.order);
    Ok(Figures {
        points,
        total: found.total,
        crossings: found.crossings,
    })
}
