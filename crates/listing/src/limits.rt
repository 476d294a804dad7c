// How long a listing can be; `specs/Widths.antt` says of what these bytes are, and no function is proved where the two differ.
use points::limits::MAX_POINTS;
use table::limits::{MAX_GAP, MAX_NAME, MAX_STEPS};

const HEAD_BYTES: usize = 33;

const ROW_BYTES: usize = 4;

const POINT_BYTES: usize = 7 + MAX_NAME;

// As many rows as the limits of steps and gaps allow.
const MAX_ROWS: usize = (MAX_STEPS - 1) * MAX_GAP + 1;

pub const MAX_LISTING: usize = HEAD_BYTES + MAX_ROWS * ROW_BYTES + MAX_POINTS * POINT_BYTES;
