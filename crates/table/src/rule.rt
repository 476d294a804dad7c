// Which numbers are taken. The whole reader is told a rule and hands it on; only here it is asked for.
ghost use Rattle.std.specs.Prelude.{◌≡◌};
ghost use Rattle.table.specs.Number.{takes};

// The old rule, by which stored tables are converted, takes long forms: numbers with groups of zeros behind them. Any other reading is by
// the shortest rule, which takes a number in its fewest bytes alone.
#[derive(Clone, Copy, Debug, PartialEq, Eq)]
pub enum Rule {
    Old,
    Shortest,
}

impl Rule {
    // Whether a number of several bytes is taken, by the last of them.
    pub fn takes(self, last: usize) -> bool
        ensures { result ≡ takes self last }
    {
        match self {
            Rule::Old => true,
            Rule::Shortest => last != 0,
        }
    }
}
