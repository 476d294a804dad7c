// What the reader gives: steps, and the table.
ghost use Rattle.table.specs.Calls.{no_step};

use crate::limits::{MAX_EDGES, MAX_STEPS};
use copylist::{Blank, CopyList};
use graph::TableEdge;

// What a step is, with the number that its kind carries: hundredths of a dB for an adjustment, minutes for a wait.
#[derive(Clone, Copy, Debug, Default, PartialEq, Eq)]
pub enum Kind {
    #[default]
    Check,
    Adjust(usize),
    Wait(usize),
}

// A step: its kind, and where in the table its name stands.
#[derive(Clone, Copy, Debug, Default, PartialEq, Eq)]
pub struct Step {
    pub kind: Kind,
    pub start: usize,
    pub len: usize,
}

impl Blank for Step {
    ghost blank = { no_step };

    fn blank() -> Step {
        Step {
            kind: Kind::Check,
            start: 0,
            len: 0,
        }
    }
}

// A table: its steps and its edges, in the table's order.
#[derive(Clone, Copy)]
pub struct Table {
    pub steps: CopyList<Step, MAX_STEPS>,
    pub edges: CopyList<TableEdge, MAX_EDGES>,
}
