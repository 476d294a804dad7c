// The strokes of a chart, one at an index: what a pen does that draws its lines.
//
// The call takes any input, ends, and has no condition. Its contract puts its answer equal to what a definition of specs/Calls.antt makes
// of the input, and says of a stroke that it ends exactly where its point belongs by the best x and the best rows.
#![tactic(auto)]

mod place;

ghost use Rattle.std.specs.Prelude.{◌≡◌};
ghost use Rattle.strokes.specs.Calls.{stroke_call, AnswerExact};

use crate::place::place_stroke;
use corners::Stroke;
use merging::merge_edges;
use ordering::chart::merge_ends;
use ordering::chart_table;
use ordering::types::TableChart;
use outcome::Refusal;
use routes::find_visit;
use spacing::limits::MAX_XS;

// The stroke at an index, counted from 0 over all lines of a table's chart, or none where the strokes are fewer. Refuses as the whole chart
// does, then more points than get an x. Where there is no stroke, no x is looked for.
pub fn find_stroke(bytes: &[u8], index: usize) -> Result<Option<Stroke>, Refusal>
    ensures value { result ≡ stroke_call bytes.now index }
    ensures answer_exact { AnswerExact bytes.now index result }
{
    let TableChart {
        table,
        turned,
        chart,
    } = chart_table(bytes)?;
    if MAX_XS < chart.order.len() {
        return Err(Refusal::LargeChart);
    }
    let lines = merge_edges(&table.edges);
    let Some(visit) = find_visit(&chart.rows, &lines, &turned, index) else {
        return Ok(None);
    };
    let ends = merge_ends(&table.edges, &turned);
    let stroke = place_stroke(visit, &chart.rows, &ends, &chart.order);
    Ok(Some(stroke))
}
