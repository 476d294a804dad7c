// Why a call is turned down: what the layers share of their answers.
#![tactic(auto)]

ghost use Rattle.std.specs.Prelude.{◌≡◌};
ghost use Rattle.outcome.specs.Refusal.{number_of};

use std::fmt;

// Why a call is turned down; `numbers_of` in specs/Refusal.antt gives each case its number.
#[derive(Clone, Copy, Debug, PartialEq, Eq)]
pub enum Refusal {
    // The bytes end too early.
    Cut,
    // A number of more than three bytes.
    Overlong,
    BadEdition,
    ManySteps,
    BadKind,
    OutOfRange,
    BadNameByte,
    ManyEdges,
    BadEnd,
    // Bytes follow the last edge.
    Spare,
    // Must edges form a loop: the lowest step on one.
    Loop(usize),
    ManyPoints,
    ShortBuffer,
    NoStep,
    // A firmness that is neither 0 nor 1.
    BadFirmness,
    // More points than get an x.
    LargeChart,
    // A row that no order is looked for: row 0, one that the chart does not have, or one of too many points.
    BadRow,
    ManyTries,
}

impl Refusal {
    // The number that the documents give a refusal.
    // One arm a refusal: the documents give the numbers, and the order of the cases promises none.
    pub fn number(self) -> usize
        ensures { result ≡ number_of self }
    {
        match self {
            Refusal::Cut => 1,
            Refusal::Overlong => 2,
            Refusal::BadEdition => 3,
            Refusal::ManySteps => 4,
            Refusal::BadKind => 5,
            Refusal::OutOfRange => 6,
            Refusal::BadNameByte => 7,
            Refusal::ManyEdges => 8,
            Refusal::BadEnd => 9,
            Refusal::Spare => 10,
            Refusal::Loop(_) => 11,
            Refusal::ManyPoints => 12,
            Refusal::ShortBuffer => 13,
            Refusal::NoStep => 14,
            Refusal::BadFirmness => 15,
            Refusal::LargeChart => 16,
            Refusal::BadRow => 17,
            Refusal::ManyTries => 18,
        }
    }
}

// What is printed of a refusal: its number, and with a loop the step.
impl fmt::Display for Refusal {
    ghost use Rattle.std.specs.Prelude.{Some};
    ghost use Rattle.outcome.specs.Refusal.{shown};

    ghost output = { λ r. Some (shown r) };

    fn fmt<W: fmt::Write>(&self, f: &mut fmt::Formatter<W>) -> fmt::Result {
        let number = self.number();
        match self {
            Refusal::Loop(step) => write!(f, "{number} {step}"),
            _ => write!(f, "{number}"),
        }
    }
}
