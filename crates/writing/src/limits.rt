// How many bytes a shortest table has at most, named once for the code; `specs/Limits.antt` of `encoding` names the same numbers for the
// definitions, and nothing is proved where the two differ.
use table::limits::{MAX_EDGES, MAX_NAME, MAX_STEPS};

// A step: its kind, two for what the kind adds, the length of its name, and the name.
const SHORT_STEP_BYTES: usize = 1 + 2 + 1 + MAX_NAME;

// An edge: its ends, its gap, two for its weight, and its firmness.
const SHORT_EDGE_BYTES: usize = 1 + 1 + 1 + 2 + 1;

// The edition, the count of steps and the steps, two for the count of edges and the edges.
pub const MAX_SHORTEST: usize = 1
    + 1
    + MAX_STEPS * SHORT_STEP_BYTES
    + 2
    + MAX_EDGES * SHORT_EDGE_BYTES;
