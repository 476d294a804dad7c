// The best so far of some lists, each with a cost.
ghost use Rattle.std.specs.Prelude.{◌≡◌, length};
ghost use Rattle.buffers.specs.Keeping.{Keeping};

use crate::copy_all;

// A list that costs less than the best so far takes its place. Answers the lower cost.
pub fn keep_fewer<T: Copy>(order: &[T], cost: usize, saved: &mut [T], fewest: usize) -> usize
    requires { length saved.old ≡ length order.now }
    ensures { Keeping order.now cost saved.old fewest saved.new result }
{
    if cost < fewest {
        copy_all(order, saved);
        return cost;
    }
    fewest
}
