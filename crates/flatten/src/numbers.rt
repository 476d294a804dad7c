// Edges lent as a slice of numbers, four to an edge.
ghost use Rattle.std.specs.Prelude.{◌≡◌, ◌<◌, length, get_or};
ghost use Rattle.graph.specs.Rows.{no_edge};
ghost use Rattle.flatten.specs.Flat.{flat_edges};
ghost use Rattle.flatten.specs.Records.{records_of, copied};

use crate::Flat;
use graph::Edge;
use table::limits::MAX_EDGES;

// How many numbers make an edge.
pub const FIELDS: usize = 4;

// The edges that the numbers write down. Of more than the limit none is read. They are read by their number, which tells the place of their
// numbers; the library has no law of slices cut into fours.
pub fn flatten_numbers(numbers: &[usize]) -> Flat
    ensures { flat_edges result ≡ copied (records_of numbers.now) }
{
    let mut flat = Flat::new();
    let count = numbers.len() / FIELDS;
    if count <= MAX_EDGES {
        for i in 0..count {
            flat.push(edge_at(numbers, i));
        }
    }
    flat
}

// Edge i.
fn edge_at(numbers: &[usize], i: usize) -> Edge
    requires { i < length (records_of numbers.now) }
    ensures { result ≡ get_or (records_of numbers.now) i no_edge }
{
    let at = i * FIELDS;
    Edge {
        from: numbers[at],
        to: numbers[at + 1],
        gap: numbers[at + 2],
        weight: numbers[at + 3],
    }
}
