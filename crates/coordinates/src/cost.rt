// What each segment of a chart costs for a unit of its horizontal distance: the weight of its line times a factor.
ghost use Rattle.std.specs.Prelude.{◌≡◌, ◌++◌, ◌+◌, ◌≤◌, ◌<◌, length};
ghost use Rattle.points.specs.Laying.{Chart};
ghost use Rattle.merging.specs.Merging.{max_added};
ghost use Rattle.flatten.specs.Flat.{flat_edges};
ghost use Rattle.spacing.specs.Limits.{max_segments};
ghost use Rattle.coordinates.specs.Costing.{factor_at, line_costs, costs_from, Light};

use arrayvec::ArrayVec;
use flatten::Flat;
use points::count_between;
use spacing::limits::{END_FACTOR, INNER_FACTOR, MAX_SEGMENTS, PLAIN_FACTOR};

// The factor of segment j of a line with k dummies: the first starts at a step, the last ends at one, and all else are dummies.
fn factor_at(j: usize, k: usize) -> usize
    ensures { result ≡ factor_at j k }
{
    if j == 0 {
        if j == k {
            return PLAIN_FACTOR;
        }
        return END_FACTOR;
    }
    if j == k {
        return END_FACTOR;
    }
    INNER_FACTOR
}

// The costs of the segments of a line with k dummies, behind those before. By number, on which the factor depends.
fn cost_line(weight: usize, k: usize, costs: &mut ArrayVec<usize, MAX_SEGMENTS>)
    requires weight_le_max_added { weight ≤ max_added }
    requires room { length costs.old.items + k < max_segments }
    ensures { costs.new.items ≡ costs.old.items ++ line_costs weight k }
{
    for j in 0..k + 1 {
        costs.push(weight * factor_at(j, k));
    }
}

// Those of all lines, by line and then downwards, as the segments are laid.
pub fn lay_costs(rows: &[usize], ends: &Flat) -> ArrayVec<usize, MAX_SEGMENTS>
    requires chart { Chart rows.now ends.now.from.items ends.now.to.items }
    requires light { Light ends.now.weight.items }
    requires room { length (costs_from rows.now (flat_edges ends.now)) ≤ max_segments }
    ensures { result.items ≡ costs_from rows.now (flat_edges ends.now) }
{
    let mut costs = ArrayVec::new();
    for ((&tail, &head), &weight) in ends.from.iter().zip(&ends.to).zip(&ends.weight) {
        let k = count_between(rows, tail, head);
        cost_line(weight, k, &mut costs);
    }
    costs
}
