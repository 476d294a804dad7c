// The points of a chart: counted, their rows laid out, and the segments between them; and the number of rows.
#![tactic(auto)]

pub mod dummy;
pub mod limits;
pub mod lists;

ghost use Rattle.std.specs.Prelude.{◌≡◌, suc, ◌+◌, ◌-◌, ◌≤◌, ◌<◌, length};
ghost use Rattle.graph.specs.Rows.{at};
ghost use Rattle.graph.specs.Search.{run};
ghost use Rattle.buffers.specs.Lists.{Below};
ghost use Rattle.points.specs.Points.{point_rows, chain, segments, row_count};
ghost use Rattle.points.specs.Laying.{edges_between, size_limit, Chart, uppers, lowers};
ghost use Rattle.buffers.specs.Written.{word_limit, Stored};

use buffers::copy_front;

// A chart: the rows of its nodes, and its edges by the lists of their ends.
#[derive(Clone, Copy)]
pub struct Layout<'a> {
    pub rows: &'a [usize],
    pub from: &'a [usize],
    pub to: &'a [usize],
    pub ghost chart: { Chart rows.now from.now to.now },
}

impl Layout<'_> {
    // How many points there are: the nodes, and on each edge one dummy fewer than its length.
    pub fn count_points(&self) -> usize
        ensures { result ≡ length (point_rows self.now.rows.now (edges_between self.now.from.now self.now.to.now)) }
    {
        let mut count = self.rows.len();
        for (&a, &b) in self.from.iter().zip(self.to) {
            count += count_between(self.rows, a, b);
        }
        count
    }

    // The row of each point: of the nodes, and then of the dummies by edge. Answers how many there are.
    // Document 01 asks for arrays of 1,024 rows, so how many are in use is told beside them.
    pub fn lay_rows(&self, row: &mut [usize]) -> usize
        requires { length (point_rows self.now.rows.now (edges_between self.now.from.now self.now.to.now)) ≤ length row.old }
        ensures { Stored row.old 0 (point_rows self.now.rows.now (edges_between self.now.from.now self.now.to.now)) row.new result }
    {
        let mut p = copy_front(self.rows, row);
        for (&a, &b) in self.from.iter().zip(self.to) {
            let end = p + count_between(self.rows, a, b);
            number_from(self.rows[a] + 1, &mut row[p..end]);
            p = end;
        }
        p
    }

    // The ends of each segment, by edge and then downwards. Answers how many segments there are.
    // They lie in arrays of a constant size, as the rows of points do.
    pub fn lay_segments(&self, upper: &mut [usize], lower: &mut [usize]) -> usize
        requires upper_room { length (segments self.now.rows.now (edges_between self.now.from.now self.now.to.now)) ≤ length upper.old }
        requires lower_room { length (segments self.now.rows.now (edges_between self.now.from.now self.now.to.now)) ≤ length lower.old }
        ensures stored { Stored upper.old 0 (uppers (segments self.now.rows.now (edges_between self.now.from.now self.now.to.now))) upper.new result }
        ensures stored_2 { Stored lower.old 0 (lowers (segments self.now.rows.now (edges_between self.now.from.now self.now.to.now))) lower.new result }
    {
        let mut d = self.rows.len();
        let mut s = 0;
        for (&a, &b) in self.from.iter().zip(self.to) {
            let k = count_between(self.rows, a, b);
            let end = s + k + 1;
            lay_chain(a, b, d, &mut upper[s..end], &mut lower[s..end]);
            s = end;
            d += k;
        }
        s
    }
}

// How many dummies an edge from node a to node b has.
pub fn count_between(rows: &[usize], a: usize, b: usize) -> usize
    requires a_in_bounds { a < length rows.now }
    requires b_in_bounds { b < length rows.now }
    requires a_bound { at rows.now a < at rows.now b }
    ensures { result ≡ at rows.now b - at rows.now a - 1 }
{
    rows[b] - rows[a] - 1
}

// The numbers from `first` on, one after another.
fn number_from(first: usize, part: &mut [usize])
    requires { first + length part.old < word_limit }
    ensures { part.new ≡ run first (length part.old) }
{
    for (i, place) in part.iter_mut().enumerate() {
        *place = first + i;
    }
}

// The ends of the segments from point a to point b over dummies that are numbered from d on, one dummy fewer than there are segments.
fn lay_chain(a: usize, b: usize, d: usize, upper: &mut [usize], lower: &mut [usize])
    requires some { 0 < length upper.old }
    requires both { length lower.old ≡ length upper.old }
    requires d_bound { d + length upper.old ≤ word_limit }
    ensures uppers { upper.new ≡ uppers (chain a b d (length upper.old - 1)) }
    ensures lowers { lower.new ≡ lowers (chain a b d (length upper.old - 1)) }
{
    let last = lower.len() - 1;
    upper[0] = a;
    number_from(d, &mut upper[1..]);
    number_from(d, &mut lower[..last]);
    lower[last] = b;
}

// The number of rows.
pub fn count_rows(rows: &[usize]) -> usize
    requires { Below size_limit rows.now }
    ensures { result ≡ row_count rows.now }
{
    let mut count = 0;
    for &row in rows {
        count = count.max(row + 1);
    }
    count
}
