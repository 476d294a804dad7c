// The limits of the search for the best order of one row, named once for the code; `specs/Limits.antt` names the same numbers for the
// definitions.

// The most points that the row may have.
pub const MAX_ROW_POINTS: usize = 32;

// An entry for each pair of them.
pub const PAIR_TABLE: usize = MAX_ROW_POINTS * MAX_ROW_POINTS;

// The most tries.
pub const MAX_TRIES: usize = 50000;
