// What the orderer hands to a layer above.
ghost use Rattle.std.specs.Prelude.{◌≡◌};
ghost use Rattle.rows.specs.Limits.{RowsLow};

use arrayvec::ArrayVec;
use layering::types::Unplaced;
use outcome::Refusal;
use points::limits::MAX_POINTS;
use table::limits::{MAX_EDGES, MAX_STEPS};
use table::types::Table;

// The numbers that go with a chart: of its points, the total of its rows, and the crossings of its order.
#[derive(Clone, Copy, Debug, PartialEq, Eq)]
pub struct Figures {
    pub points: usize,
    pub total: usize,
    pub crossings: usize,
}

// The rows, one a step, how many rows these make, the points in their order, and the numbers that go with them.
#[derive(Drop)]
pub struct ChartFound {
    pub rows: ArrayVec<usize, MAX_STEPS>,
    pub height: usize,
    pub order: ArrayVec<u16, MAX_POINTS>,
    pub total: usize,
    pub crossings: usize,
    ghost low: { RowsLow rows.items },
}

// A table, which of its edges are turned, and its chart.
#[derive(Drop)]
pub struct TableChart {
    pub table: Table,
    pub turned: ArrayVec<bool, MAX_EDGES>,
    pub chart: ChartFound,
}

// Why there is no chart, and the table and its turned edges as `place_table` leaves them: with too many points both are there, with a loop
// the table alone.
#[derive(Drop)]
pub struct Uncharted {
    pub refusal: Refusal,
    pub table: Option<Table>,
    pub turned: ArrayVec<bool, MAX_EDGES>,
}

// A table without rows has no chart, and of its edges none is turned.
impl From<Unplaced> for Uncharted {
    ghost use Rattle.ordering.specs.Calls.{RowsRefused};

    ghost from_gives = { λ u r. RowsRefused u r };

    fn from(unplaced: Unplaced) -> Uncharted {
        Uncharted {
            refusal: unplaced.refusal,
            table: unplaced.table,
            turned: ArrayVec::new(),
        }
    }
}

// For a caller that passes on the reason alone.
impl From<Uncharted> for Refusal {
    ghost from_gives = { λ u f. f ≡ u.refusal };

    fn from(uncharted: Uncharted) -> Refusal {
        uncharted.refusal
    }
}
