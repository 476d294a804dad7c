// The listing of a table, on a page that has room for any.
ghost use Rattle.std.specs.Prelude.{◌≡◌, ◌++◌, ◌+◌, ◌≤◌, Ok};
ghost use Rattle.arrayvec.specs.ArrayVec.{array_vec_len};
ghost use Rattle.ordering.specs.Calls.{draw_call, draw_end};
ghost use Rattle.ordering.specs.Charting.{TableFound};
ghost use Rattle.listing.specs.Listing.{listing};
ghost use Rattle.listing.specs.Widths.{max_listing};

use arrayvec::ArrayVec;
use labels::Labels;
use lines::dummies::lay_dummies;
use lines::sheet::Sheet;
use lines::{put_line, put_refusal};
use merging::merge_edges;
use ordering::chart_table;
use ordering::types::TableChart;
use points::limits::MAX_POINTS;

// The lines that the bytes are to print.
// They are put together from a table, its chart and its bytes, none of which has a form to print of its own.
pub fn print_page<const CAP: usize>(bytes: &[u8], page: &mut ArrayVec<u8, CAP>)
    requires room { array_vec_len page.old + max_listing ≤ CAP }
    ensures { page.new.items ≡ page.old.items ++ listing bytes.now }
{
    match chart_table(bytes) {
        Ok(charted) => print_chart(bytes, &charted, page),
        Err(uncharted) => put_refusal(uncharted.refusal, page),
    }
}

// Those of a table that has a chart. Of repeated edges one bears the dummies, with its number.
fn print_chart<const CAP: usize>(bytes: &[u8], charted: &TableChart, page: &mut ArrayVec<u8, CAP>)
    requires drawn { draw_end (Ok charted.now) ≡ draw_call bytes.now }
    requires found { TableFound bytes.now (Ok charted.now.chart) }
    requires room { array_vec_len page.old + max_listing ≤ CAP }
    ensures { page.new.items ≡ page.old.items ++ listing bytes.now }
{
    let table = &charted.table;
    let chart = &charted.chart;
    let dummies = lay_dummies::<MAX_POINTS>(
        &merge_edges(&table.edges),
        &charted.turned,
        &chart.rows,
    );
    let (n, m) = (table.steps.len(), table.edges.len());
    let figures = [n, m, chart.height, chart.total, chart.crossings];
    put_line(b"chart", &figures, page);
    let labels = Labels {
        bytes,
        steps: &table.steps,
        dummies: &dummies,
        turned: &charted.turned,
    };
    let sheet = Sheet {
        labels,
        ys: &chart.rows,
        order: &chart.order,
    };
    sheet.put_rows(chart.height, page);
}
