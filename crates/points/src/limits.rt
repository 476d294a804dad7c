// The limit of a chart, named once for the code; `specs/Limits.antt` names the same number for the definitions.

// Steps and dummies of a chart.
pub const MAX_POINTS: usize = 1024;
