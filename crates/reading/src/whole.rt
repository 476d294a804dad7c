// A whole table: its two lists, and nothing behind them.
ghost use Rattle.std.specs.Prelude.{◌≡◌};
ghost use Rattle.table.specs.Table.{lists_at, table_at, outcome};
ghost use Rattle.table.specs.Calls.{table_outcome};

use crate::lists::{edges_at, steps_at};
use outcome::Refusal;
use table::source::Source;
use table::types::Table;

// What stands behind the edition.
#[tactic(auto, unfolding(table::specs::Table::lists_within))]
pub fn read_lists(source: &Source<'_>, edition: usize, at: usize) -> Result<Table, Refusal>
    ensures { table_outcome result ≡ outcome (lists_at source.now.rule source.now.bytes.now edition at) }
{
    let (steps, behind_steps) = steps_at(source, at)?;
    let (edges, end) = edges_at(source, edition, steps.len(), behind_steps)?;
    if end != source.bytes.len() {
        return Err(Refusal::Spare);
    }
    Ok(Table { steps, edges })
}
