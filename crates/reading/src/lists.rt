// The steps and the edges of a table, each list behind its count.
ghost use Rattle.std.specs.Prelude.{◌≡◌, ◌≤◌, ℕ};
ghost use Rattle.table.specs.Limits.{max_steps};
ghost use Rattle.table.specs.Number.{Read, many};
ghost use Rattle.table.specs.Table.{steps_at, edges_at};
ghost use Rattle.reading.specs.Lists.{list_of, Reads};

use copylist::{Blank, CopyList};
use graph::TableEdge;
use outcome::Refusal;
use table::limits::{MAX_EDGES, MAX_STEPS};
use table::source::Source;
use table::types::Step;

// A list and the place behind it, or the first fault.
pub type ListRead<T, const CAP: usize> = Result<(CopyList<T, CAP>, usize), Refusal>;

// So many items, one behind the other, each as `item` reads it.
fn many<T: Blank, const CAP: usize, F: Fn(usize) -> Result<(T, usize), Refusal>>(
    item: F,
    count: usize,
    at: usize,
) -> ListRead<T, CAP>
    requires callable { F.IsAlwaysCallable item }
    requires room { count ≤ CAP }
    ensures { (read : ℕ → Read T) → Reads (F.post item) read → list_of result ≡ many read count at }
{
    let mut list = CopyList::new();
    let mut next = at;
    for _ in 0..count {
        let (read, after) = item(next)?;
        list.push(read);
        next = after;
    }
    Ok((list, next))
}

// The count of steps, then the steps. Two readers of two lines each: what they share is `many`.
#[tactic(auto, unfolding(table::specs::Table::steps_within))]
pub fn steps_at(source: &Source<'_>, at: usize) -> ListRead<Step, MAX_STEPS>
    ensures { list_of result ≡ steps_at source.now.rule source.now.bytes.now at }
{
    let (n, next) = source.number_in(at, 0, MAX_STEPS, Refusal::ManySteps)?;
    many(|p| source.step_at(p), n, next)
}

// The count of edges, then the edges, of a table of n steps.
#[tactic(auto, unfolding(table::specs::Table::edges_within))]
pub fn edges_at(
    source: &Source<'_>,
    edition: usize,
    n: usize,
    at: usize,
) -> ListRead<TableEdge, MAX_EDGES>
    requires { n ≤ max_steps }
    ensures { list_of result ≡ edges_at source.now.rule source.now.bytes.now edition n at }
{
    let (m, next) = source.number_in(at, 0, MAX_EDGES, Refusal::ManyEdges)?;
    many(|p| source.table_edge_at(edition, n, p), m, next)
}
