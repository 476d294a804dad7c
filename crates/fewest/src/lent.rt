// What a search for an order goes over, and what is lent for it.
ghost use Rattle.fewest.specs.Drafts.{Segmented, Prepared};

use points::lists::Side;

// Points in their rows, and segments between them by the points at their ends.
#[derive(Clone, Copy)]
pub struct Sketch<'a> {
    pub row: &'a [usize],
    pub upper: &'a [usize],
    pub lower: &'a [usize],
    pub ghost segmented: { Segmented row.now upper.now lower.now },
}

// The row of each point, and the segments above and below the points.
#[derive(Clone, Copy)]
pub struct Sides<'a> {
    pub row: &'a [usize],
    pub above: Side<'a>,
    pub below: Side<'a>,
    pub ghost prepared: { Prepared row.now above.far.now below.far.now above.head.now above.next.now above.counts.now below.head.now below.next.now below.counts.now },
}

// An order on its way: where its rows start, its points row by row, room for a copy of them, and the position of each.
#[derive(Drop)]
pub struct Draft<'a> {
    pub first: &'a mut [usize],
    pub order: &'a mut [usize],
    pub before: &'a mut [usize],
    pub pos: &'a mut [usize],
}
