// The total of rows: weight times length, summed over the edges.
ghost use Rattle.std.specs.Prelude.{◌≡◌, []};
ghost use Rattle.graph.specs.Rows.{at, total};
ghost use Rattle.relaxation.specs.Network.{edges_of};
ghost use Rattle.rows.specs.Placed.{RowsSummable};

// The total of rows that keep the edges. Gaps play no part in it.
pub fn total_rows(from: &[usize], to: &[usize], weight: &[usize], rows: &[usize]) -> usize
    requires { RowsSummable from.now to.now weight.now rows.now }
    ensures { result ≡ total (edges_of from.now to.now [] weight.now) (at rows.now) }
{
    let mut sum = 0;
    for ((&tail, &head), &w) in from.iter().zip(to).zip(weight) {
        sum += w * (rows[head] - rows[tail]);
    }
    sum
}
