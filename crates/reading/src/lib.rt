// The reader: what the bytes of a table say, or the first refusal.
//
// The calls take any bytes, end, and have no condition. Their contracts put the whole answer, 0 or the number of the refusal and what the
// table holds, equal to what a definition of `specs/Calls.antt` of `table` makes of the bytes.
#![tactic(auto)]

mod lists;
mod whole;

ghost use Rattle.std.specs.Prelude.{◌≡◌};
ghost use Rattle.table.specs.Calls.{read_end, read_call, read_call_by};

use crate::whole::read_lists;
use outcome::Refusal;
use table::limits::{MAX_EDITION, MIN_EDITION};
use table::rule::Rule;
use table::source::Source;
use table::types::Table;

// The table that the bytes write down, or the first refusal.
pub fn read_table(bytes: &[u8]) -> Result<Table, Refusal>
    ensures { read_end result ≡ read_call bytes.now }
{
    read_table_by(Rule::Shortest, bytes)
}

// The same by a rule for the forms of numbers.
#[tactic(auto, unfolding(table::specs::Table::read_within, table::specs::Table::table_within, table::specs::Calls::read_call_by))]
pub fn read_table_by(rule: Rule, bytes: &[u8]) -> Result<Table, Refusal>
    ensures { read_end result ≡ read_call_by rule bytes.now }
{
    let source = Source { rule, bytes };
    let (edition, at) = source.number_in(0, MIN_EDITION, MAX_EDITION, Refusal::BadEdition)?;
    read_lists(&source, edition, at)
}
