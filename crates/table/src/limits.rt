// The limits of a table, each named once for the code; `specs/Limits.antt` names the same numbers for the definitions, and no
// function is proved where the two differ.
// The editions: the first has must edges only, the last a firmness for each edge.
pub const MIN_EDITION: usize = 1;

pub const MAX_EDITION: usize = 2;

pub const MAX_STEPS: usize = 96;

pub const MAX_EDGES: usize = 288;

pub const MAX_KIND: usize = 2;

pub const MAX_TOLERANCE: usize = 9999;

pub const MIN_MINUTES: usize = 1;

pub const MAX_MINUTES: usize = 240;

pub const MIN_NAME: usize = 1;

pub const MAX_NAME: usize = 16;

pub const MIN_NAME_BYTE: u8 = 0x21;

pub const MAX_NAME_BYTE: u8 = 0x7E;

pub const MIN_GAP: usize = 1;

pub const MAX_GAP: usize = 4;

pub const MAX_WEIGHT: usize = 255;

// The firmness of an edge: 0 for must, 1 for soft.
pub const SOFT: usize = 1;

// What a program takes from standard input. No accepted table is that long.
pub const MAX_INPUT: usize = 8192;
