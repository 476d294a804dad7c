// The transitive closure of edges, kept as they are put in one by one: a matrix of marks, from which to ask for a walk is one read.
#![tactic(auto)]

ghost use Rattle.std.specs.Prelude.{◌≡◌, false, [], ◌+◌, ◌*◌, ◌≤◌, ◌<◌, length, get_or};
ghost use Rattle.table.specs.Limits.{max_steps};
ghost use Rattle.closure.specs.Closure.{MatrixRoom, Closure, Fresh, RowMarked, RowExtended, Extended, Added};

use table::limits::MAX_STEPS;

// How many marks a matrix has at most.
pub const CELLS: usize = MAX_STEPS * MAX_STEPS;

// The walks over some edges between n nodes: n rows of n marks, of which mark u * n + v is set where a walk leads from u to v.
#[derive(Drop)]
pub struct Walks {
    pub n: usize,
    pub marks: [bool; CELLS],
    ghost few: { n ≤ max_steps },
    ghost room: { MatrixRoom n marks },
}

impl Walks {
    // Those over no edge.
    pub fn none(n: usize) -> Walks
        requires { n ≤ max_steps }
        ensures nodes { result.n ≡ n }
        ensures closure { Closure n [] result.marks }
    {
        Walks {
            n,
            marks: [false; CELLS],
        }
    }

    // Whether a walk leads from u to v.
    pub fn leads(&self, u: usize, v: usize) -> bool
        requires { (u < self.now.n) × (v < self.now.n) }
        ensures { result ≡ get_or self.now.marks (u * self.now.n + v) false }
    {
        self.marks[u * self.n + v]
    }

    // The edge from a to b put in. Where a walk leads from a to b already it opens no way. Else whatever leads to a leads on to b, and to
    // all that is onward from b.
    pub fn add_edge(&mut self, a: usize, b: usize)
        requires { (a < self.old.n) × (b < self.old.n) }
        ensures nodes { self.new.n ≡ self.old.n }
        ensures added { Added self.old.n a b self.old.marks self.new.marks }
    {
        if self.leads(a, b) {
            return;
        }
        let fresh = self.onward_from(b);
        self.extend_rows(&fresh[..self.n], a, b);
    }

    // The marks of b itself and of row b.
    fn onward_from(&self, b: usize) -> [bool; MAX_STEPS]
        requires { b < self.now.n }
        ensures { Fresh self.now.n b self.now.marks result }
    {
        let n = self.n;
        let base = b * n;
        let mut fresh = [false; MAX_STEPS];
        fresh[..n].copy_from_slice(&self.marks[base..base + n]);
        fresh[b] = true;
        fresh
    }

    // Every row extended by the edge from a to b. The marks that are new come from a copy of row b, since row b may itself be extended.
    // By number: rows handed out by an iterator would lend the marks while the other fields are read.
    fn extend_rows(&mut self, fresh: &[bool], a: usize, b: usize)
        requires long { length fresh.now ≡ self.old.n }
        requires ends { (a < self.old.n) × (b < self.old.n) }
        ensures nodes { self.new.n ≡ self.old.n }
        ensures extended { Extended self.old.n a b self.old.n fresh.now self.old.marks self.new.marks }
    {
        for u in 0..self.n {
            self.extend_row(fresh, a, b, u);
        }
    }

    // Row u extended by the edge from a to b, if u is a or leads to it. A row that marks b marks all that is onward from b already. The
    // number of nodes is the length of `fresh`, which stays in a register where `self.n` would be read again for each row.
    fn extend_row(&mut self, fresh: &[bool], a: usize, b: usize, u: usize)
        requires long { length fresh.now ≡ self.old.n }
        requires ends { (a < self.old.n) × (b < self.old.n) × (u < self.old.n) }
        ensures nodes { self.new.n ≡ self.old.n }
        ensures extended { RowExtended self.old.n a b u fresh.now self.old.marks self.new.marks }
    {
        let n = fresh.len();
        let base = u * n;
        if self.marks[base + b] {
            return;
        }
        if u != a && !self.marks[base + a] {
            return;
        }
        mark_row(&mut self.marks[base..base + n], fresh);
    }
}

// The marks of a row set where those of fresh are.
fn mark_row(row: &mut [bool], fresh: &[bool])
    requires { length row.old ≤ length fresh.now }
    ensures { RowMarked fresh.now row.old row.new }
{
    for (v, mark) in row.iter_mut().enumerate() {
        *mark |= fresh[v];
    }
}
