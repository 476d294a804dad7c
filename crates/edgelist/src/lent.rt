// Lent edges, copied to flat lists: judged and placed.
ghost use Rattle.std.specs.Prelude.{◌≡◌, ◌≤◌, length};
ghost use Rattle.table.specs.Limits.{max_edges};
ghost use Rattle.outcome.specs.Refusal.{outcome_of};
ghost use Rattle.flatten.specs.Flat.{flat_edges};
ghost use Rattle.edgelist.specs.Calls.{ends_good, sizes_good, edge_judged, records_judged};
ghost use Rattle.edgelist.specs.Lent.{LentPlaced, LentAnswered};

use flatten::Flat;
use graph::Edge;
use outcome::Refusal;
use ranking::place_edges;
use rows::store::hand_out;
use rows::types::{Row, RowsFound};
use table::limits::{MAX_EDGES, MAX_GAP, MAX_STEPS, MAX_WEIGHT, MIN_GAP};

// The answer for n steps and m lent edges, and its rows in a buffer.
// Of a list that is too long none is copied, so its length comes beside it.
pub fn answer_lent(n: usize, m: usize, flat: &Flat, rows: &mut [Row]) -> Result<(), Refusal>
    ensures { LentAnswered n m flat.now rows.old rows.new result }
{
    let found = place_lent(n, m, flat)?;
    hand_out(&found, rows)
}

// The rows of m lent edges, between n steps. Of more than the limit none is copied.
fn place_lent(n: usize, m: usize, flat: &Flat) -> Result<RowsFound, Refusal>
    ensures { LentPlaced n m flat.now result }
{
    if MAX_STEPS < n {
        return Err(Refusal::ManySteps);
    }
    if MAX_EDGES < m {
        return Err(Refusal::ManyEdges);
    }
    judge_edges(n, flat)?;
    place_edges(flat, n)
}

// Edges between n steps, each in turn: the first fault decides.
fn judge_edges(n: usize, flat: &Flat) -> Result<(), Refusal>
    ensures judged { outcome_of result ≡ records_judged n (flat_edges flat.now) }
    ensures few { length (flat_edges flat.now) ≤ max_edges }
{
    let ends = flat.from.iter().zip(&flat.to);
    let sizes = flat.gap.iter().zip(&flat.weight);
    for ((&from, &to), (&gap, &weight)) in ends.zip(sizes) {
        judge_edge(
            n,
            Edge {
                from,
                to,
                gap,
                weight,
            },
        )?;
    }
    Ok(())
}

// One edge between n steps: its ends, then its gap and its weight.
#[tactic(auto, unfolding(crate::specs::Calls::edge_judged))]
fn judge_edge(n: usize, e: Edge) -> Result<(), Refusal>
    ensures { outcome_of result ≡ edge_judged n e }
{
    if !has_good_ends(n, e) {
        return Err(Refusal::BadEnd);
    }
    if !has_good_sizes(e) {
        return Err(Refusal::OutOfRange);
    }
    Ok(())
}

// Whether the ends are two different steps, of n steps.
fn has_good_ends(n: usize, e: Edge) -> bool
    ensures { result ≡ ends_good n e }
{
    e.from < n && e.to < n && e.from != e.to
}

// Whether gap and weight are in range.
fn has_good_sizes(e: Edge) -> bool
    ensures { result ≡ sizes_good e }
{
    MIN_GAP <= e.gap && e.gap <= MAX_GAP && e.weight <= MAX_WEIGHT
}
