// How large a chart may be to get an x, each number named once for the code; `specs/Limits.antt` names the same for the definitions.
use table::limits::MAX_EDGES;

// Points, and segments between so many: one more than dummies on each line.
pub const MAX_XS: usize = 128;

pub const MAX_SEGMENTS: usize = MAX_XS + MAX_EDGES;

// The nodes and edges of the auxiliary network.
pub const MAX_NODES: usize = MAX_XS + MAX_SEGMENTS;

pub const MAX_LINKS: usize = MAX_XS + 2 * MAX_SEGMENTS;

// What the weight of a line is multiplied with: between two steps, with one dummy, between two dummies.
pub const PLAIN_FACTOR: usize = 1;

pub const END_FACTOR: usize = 2;

pub const INNER_FACTOR: usize = 8;
