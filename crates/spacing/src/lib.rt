// x of points in a fixed order: how far from the left each stands, so that segments run straight.
//
// The x are the best rows of an auxiliary network, which the solver finds. The contract says that no other x, spaced as the order asks,
// have a smaller total, and none of the same total a smaller x anywhere.
#![tactic(auto)]

pub mod limits;
mod link;

ghost use Rattle.spacing.specs.Flat.{Spaceable, FoundX};

use crate::limits::{MAX_LINKS, MAX_NODES};
use crate::link::{link_points, link_segments};
use flatten::EdgeLists;
use network::best_rows;
use relaxation::net::Net;

// The best x of the points of an order, one flat list of rows; `row` has the row of each point, the others the ends and the cost of each
// segment. They are the first entries of the answer, one a point.
pub fn find_x(
    order: &[u16],
    row: &[usize],
    upper: &[usize],
    lower: &[usize],
    cost: &[usize],
) -> [usize; MAX_NODES]
    requires { Spaceable order.now row.now upper.now lower.now cost.now }
    ensures { FoundX order.now row.now upper.now lower.now cost.now result }
{
    let mut links = EdgeLists::<MAX_LINKS>::new();
    link_points(order, row, &mut links);
    link_segments(upper, lower, cost, order.len(), &mut links);
    let net = Net {
        arcs: links.arcs(order.len() + upper.len()),
        weight: &links.weight,
    };
    let mut y = [0usize; MAX_NODES];
    best_rows::<MAX_NODES, MAX_LINKS>(&net, &mut y);
    y
}
