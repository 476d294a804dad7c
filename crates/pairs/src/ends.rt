// The ends of a segment.

// Where the upper end of a segment stands in the row above, and where its lower end stands in the row.
#[derive(Clone, Copy, Default, Debug, PartialEq, Eq)]
pub struct Ends {
    pub upper: usize,
    pub lower: usize,
}
