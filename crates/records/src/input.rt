// The input: words of 8 bytes, low byte first. The step count, how many entries of a buffer to lend, then four words a record.
//
// A word that is not there is 0. Words at the end that make no whole record are left out.
ghost use Rattle.std.specs.Prelude.{◌≡◌, ◌<◌};
ghost use Rattle.records.specs.Input.{max_lent, word_at, lent_at, edges_in, count_of};

use arrayvec::ArrayVec;
use graph::Edge;
use table::limits::MAX_EDGES;

const WORD: usize = 8;

// The words before the records.
const HEAD: usize = 2;

// The words of a record.
const FIELDS: usize = 4;

// More than the row finder takes, so that it is seen to refuse a list that is too long.
pub const MAX_LENT: usize = MAX_EDGES + 8;

// What the longest list takes.
pub const MAX_READ: usize = (HEAD + MAX_LENT * FIELDS) * WORD;

// The records as edges. Those that no list has room for are left out.
// By number, as the definition has them: words that are not there are 0.
#[tactic(auto, unfolding(crate::specs::Input::first_edges))]
pub fn read_edges(bytes: &[u8]) -> ArrayVec<Edge, MAX_LENT>
    ensures { result.items ≡ edges_in bytes.now }
{
    let mut edges = ArrayVec::new();
    for i in 0..count_records(bytes.len()) {
        edges.push(edge_at(bytes, i));
    }
    edges
}

// How many records stand in so many bytes, and have room.
fn count_records(len: usize) -> usize
    ensures { result ≡ count_of len }
{
    ((len / WORD).saturating_sub(HEAD) / FIELDS).min(MAX_LENT)
}

// The record with the number i.
#[tactic(auto, unfolding(crate::specs::Input::lent_at))]
fn edge_at(bytes: &[u8], i: usize) -> Edge
    requires { i < max_lent }
    ensures { result ≡ lent_at bytes.now i }
{
    let at = HEAD + i * FIELDS;
    Edge {
        from: word_at(bytes, at),
        to: word_at(bytes, at + 1),
        gap: word_at(bytes, at + 2),
        weight: word_at(bytes, at + 3),
    }
}

// The word with the number i.
#[tactic(auto, using(crate::proofs::WordLaws::word_some, crate::proofs::WordLaws::word_none))]
pub fn word_at(bytes: &[u8], i: usize) -> usize
    ensures { result ≡ word_at bytes.now i }
{
    let (words, _) = bytes.as_chunks::<WORD>();
    match words.get(i) {
        Some(word) => usize::from_le_bytes(*word),
        None => 0,
    }
}
