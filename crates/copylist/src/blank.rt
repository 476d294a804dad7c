// What stands in the places of a list that no element has.
ghost use Rattle.std.specs.Prelude.{◌≡◌};
ghost use Rattle.graph.specs.Directed.{no_table_edge};

use graph::TableEdge;

// A value for a place that is not used. It is one for each type, so that a list's elements tell what stands in all of its places.
pub trait Blank: Copy {
    ghost blank: { Self };

    fn blank() -> Self
        ensures { result ≡ blank };
}

impl Blank for usize {
    ghost blank = { 0 };

    fn blank() -> usize {
        0
    }
}

impl Blank for TableEdge {
    ghost blank = { no_table_edge };

    fn blank() -> TableEdge {
        TableEdge {
            from: 0,
            to: 0,
            gap: 0,
            weight: 0,
            soft: false,
        }
    }
}
