// The chart of edges in their best rows: the order of its points, or why there is none.
ghost use Rattle.std.specs.Prelude.{◌≡◌, length};
ghost use Rattle.graph.specs.Directed.{directed_by};
ghost use Rattle.merging.specs.Merged.{merged, drawn_edges};
ghost use Rattle.merging.specs.Merging.{Mergeable};
ghost use Rattle.flatten.specs.Flat.{flat_edges};
ghost use Rattle.ordering.specs.Charting.{RowsGiven, EdgesFound};

use crate::types::ChartFound;
use arrayvec::ArrayVec;
use drawing::draw_points;
use flatten::Flat;
use graph::TableEdge;
use merging::merge_edges;
use outcome::Refusal;
use points::limits::MAX_POINTS;
use points::{Layout, count_rows};
use rows::types::RowsFound;

// The chart of edges, each as its flag says, in their best rows: repeated edges are drawn as one. The points are counted first, since only
// so many can be drawn.
pub fn draw_edges(
    edges: &[TableEdge],
    turned: &[bool],
    found: RowsFound,
) -> Result<ChartFound, Refusal>
    requires rows_given { RowsGiven (directed_by turned.now edges.now) found }
    requires turned_len { length turned.now ≡ length edges.now }
    ensures { EdgesFound (length found.rows.items) (directed_by turned.now edges.now) (drawn_edges turned.now (merged edges.now)) found.rows.items result }
{
    let ends = merge_ends(edges, turned);
    let layout = Layout {
        rows: &found.rows,
        from: &ends.from,
        to: &ends.to,
    };
    let points = layout.count_points();
    if MAX_POINTS < points {
        return Err(Refusal::ManyPoints);
    }
    let height = count_rows(layout.rows);
    let mut all = [0u16; MAX_POINTS];
    let crossings = draw_points(&layout, points, &mut all);
    let mut order = ArrayVec::from(all);
    order.truncate(points);
    Ok(ChartFound {
        rows: found.rows,
        height,
        order,
        total: found.total,
        crossings,
    })
}

// The edges as they are drawn: repeated ones are one, each kept or turned as its first edge is.
pub fn merge_ends(edges: &[TableEdge], turned: &[bool]) -> Flat
    requires mergeable { Mergeable edges.now }
    requires turned_len { length turned.now ≡ length edges.now }
    ensures { flat_edges result ≡ drawn_edges turned.now (merged edges.now) }
{
    let lines = merge_edges(edges);
    let mut ends = Flat::new();
    for line in lines.as_slice() {
        let first = line.first as usize;
        ends.push(line.directed(turned[first]));
    }
    ends
}
