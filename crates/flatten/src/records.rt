// Edges lent as a slice of records.
ghost use Rattle.std.specs.Prelude.{◌≡◌};
ghost use Rattle.flatten.specs.Flat.{flat_edges};
ghost use Rattle.flatten.specs.Records.{copied};

use crate::Flat;
use graph::Edge;
use table::limits::MAX_EDGES;

// The records. Of a slice longer than the limit no record is read.
pub fn flatten_records(records: &[Edge]) -> Flat
    ensures { flat_edges result ≡ copied records.now }
{
    let mut flat = Flat::new();
    if records.len() <= MAX_EDGES {
        for e in records {
            flat.push(*e);
        }
    }
    flat
}
