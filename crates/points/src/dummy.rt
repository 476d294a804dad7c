// A dummy of a chart: the number of its edge, and its row.
#[derive(Clone, Copy, Debug, Default, PartialEq, Eq)]
pub struct Dummy {
    pub edge: usize,
    pub row: usize,
}
