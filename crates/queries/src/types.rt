// What the calls answer: counts, and where a name stands.
#[derive(Clone, Copy, Debug, PartialEq, Eq)]
pub struct Counts {
    pub steps: usize,
    pub edges: usize,
}

// Where the name of a step stands in the table.
#[derive(Clone, Copy, Debug, PartialEq, Eq)]
pub struct Name {
    pub start: usize,
    pub len: usize,
}
