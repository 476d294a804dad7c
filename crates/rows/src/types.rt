// What is found for edges: rows and their total.
ghost use Rattle.rows.specs.Limits.{RowsLow};

use arrayvec::ArrayVec;
use table::limits::MAX_STEPS;

// A row in a buffer that is lent.
pub type Row = u16;

// The rows, one a step, and their total. No row is above the bound, so that each fits a lent buffer.
#[derive(Drop)]
pub struct RowsFound {
    pub rows: ArrayVec<usize, MAX_STEPS>,
    pub total: usize,
    ghost low: { RowsLow rows.items },
}
