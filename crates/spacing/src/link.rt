// The edges of the auxiliary network, written one behind the other.
ghost use Rattle.std.specs.Prelude.{◌≡◌, ◌++◌, ◌+◌, ◌-◌, ◌*◌, ◌≤◌, ◌<◌, length};
ghost use Rattle.spacing.specs.Limits.{max_xs, max_links};
ghost use Rattle.spacing.specs.Auxiliary.{pull, pull_edges};
ghost use Rattle.buffers.specs.Lists.{Below};
ghost use Rattle.flatten.specs.Flat.{flat_edges};
ghost use Rattle.spacing.specs.Flat.{costed_of, besides};

use crate::limits::MAX_LINKS;
use flatten::EdgeLists;
use graph::Edge;

// The edges between neighbours of all rows, each from a point to the one on its right.
pub fn link_points(order: &[u16], row: &[usize], links: &mut EdgeLists<MAX_LINKS>)
    requires below { Below (length row.now) order.now }
    requires room { length (flat_edges links.old) + length order.now ≤ max_links }
    ensures { flat_edges links.new ≡ flat_edges links.old ++ besides row.now order.now (length order.now - 1) }
{
    for pair in order.windows(2) {
        let p = pair[0] as usize;
        let q = pair[1] as usize;
        if row[p] == row[q] {
            links.push(Edge {
                from: p,
                to: q,
                gap: 1,
                weight: 0,
            });
        }
    }
}

// The two edges of each segment, from its own node to its ends; the nodes of the segments are numbered from n on.
// n is the number of points.
pub fn link_segments(
    upper: &[usize],
    lower: &[usize],
    cost: &[usize],
    n: usize,
    links: &mut EdgeLists<MAX_LINKS>,
)
    requires long { (length lower.now ≡ length upper.now) × (length cost.now ≡ length upper.now) × (n ≤ max_xs) }
    requires room { length (flat_edges links.old) + 2 * length upper.now ≤ max_links }
    ensures { flat_edges links.new ≡ flat_edges links.old ++ pull_edges n (costed_of upper.now lower.now cost.now) }
{
    for (k, ((&u, &l), &c)) in upper.iter().zip(lower).zip(cost).enumerate() {
        links.push(pulling(n + k, u, c));
        links.push(pulling(n + k, l, c));
    }
}

// The edge from a segment's node to an end of it.
fn pulling(node: usize, end: usize, cost: usize) -> Edge
    ensures { result ≡ pull node end cost }
{
    Edge {
        from: node,
        to: end,
        gap: 0,
        weight: cost,
    }
}
