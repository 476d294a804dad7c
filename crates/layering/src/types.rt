// What the row finder gives of a table.
ghost use Rattle.std.specs.Prelude.{◌≡◌};
ghost use Rattle.layering.specs.Calls.{unread};

use arrayvec::ArrayVec;
use outcome::Refusal;
use rows::types::RowsFound;
use table::limits::MAX_EDGES;
use table::types::Table;

// A table, which of its edges are turned, and the rows of all as kept or turned.
#[derive(Drop)]
pub struct TableRows {
    pub table: Table,
    pub turned: ArrayVec<bool, MAX_EDGES>,
    pub found: RowsFound,
}

// Why there are no rows, and the table where it is not the reader that refuses: a loop leaves it as it was read.
#[derive(Drop)]
pub struct Unplaced {
    pub refusal: Refusal,
    pub table: Option<Table>,
}

// The reader's refusal: no table was read.
impl From<Refusal> for Unplaced {
    ghost from_gives = { λ f u. u ≡ unread f };

    fn from(refusal: Refusal) -> Unplaced {
        Unplaced {
            refusal,
            table: None,
        }
    }
}

// For a caller that passes on the reason alone.
impl From<Unplaced> for Refusal {
    ghost from_gives = { λ u f. f ≡ u.refusal };

    fn from(unplaced: Unplaced) -> Refusal {
        unplaced.refusal
    }
}
