// The merged edge that an edge joins, found by a number that says ends and firmness. Those with one sum of their ends are a chain: a head for
// each sum, and for each merged edge the one before it with the same sum. A link is a slot, one more than a place, and 0 where a chain ends,
// so that it takes one word.
ghost use Rattle.std.specs.Prelude.{◌≡◌, ◌≤◌, length};
ghost use Rattle.merging.specs.Merging.{key_of, Links, SlotFound};

use graph::TableEdge;
use table::limits::MAX_STEPS;

// How many sums of two ends there can be.
pub const SUMS: usize = MAX_STEPS + MAX_STEPS;

// The key of an edge.
pub fn key_of(e: TableEdge) -> usize
    ensures { result ≡ key_of e }
{
    let pair = (e.from as usize * MAX_STEPS + e.to as usize) * 2;
    if e.soft {
        return pair + 1;
    }
    pair
}

// The first place with this key on the chain from slot `start` on. A chain is short, and is walked by its links.
pub fn find_slot(keys: &[usize], next: &[usize], start: usize, key: usize) -> Option<usize>
    requires links { Links next.now × (length keys.now ≡ length next.now) }
    requires start_in_bounds { start ≤ length next.now }
    ensures { SlotFound keys.now next.now start key result }
{
    let mut slot = start;
    while 0 < slot {
        let place = slot - 1;
        if keys[place] == key {
            return Some(place);
        }
        slot = next[place];
    }
    None
}
