// The lines of a chart's rows.
ghost use Rattle.std.specs.Prelude.{◌≡◌, ◌++◌, map, ◌+◌, ◌≤◌, ◌<◌, length};
ghost use Rattle.graph.specs.Rows.{at};
ghost use Rattle.arrayvec.specs.ArrayVec.{array_vec_len};
ghost use Rattle.buffers.specs.Lists.{Below};
ghost use Rattle.labels.specs.Text.{decimal};
ghost use Rattle.labels.specs.Labels.{label_text};
ghost use Rattle.lines.specs.Lines.{line};
ghost use Rattle.lines.specs.Printing.{leading, lines_from, dummy_rows, Printable};

use arrayvec::ArrayVec;
use labels::Labels;
use labels::text::put_number;

// A chart as it is printed: what its points are, the row of each step, and the points row by row.
#[derive(Clone, Copy)]
pub struct Sheet<'a> {
    pub labels: Labels<'a>,
    pub ys: &'a [usize],
    pub order: &'a [u16],
    ghost printable: { Printable (length labels.steps.now) (length labels.dummies.now) ys.now order.now },
}

impl Sheet<'_> {
    // The line of each row, of `height` rows. It counts rows and indexes nothing.
    pub fn put_rows<const CAP: usize>(&self, height: usize, page: &mut ArrayVec<u8, CAP>)
        requires room { array_vec_len page.old + length (lines_from (label_text self.now.labels.bytes.now self.now.labels.steps.now self.now.labels.dummies.now self.now.labels.turned.now) (self.now.ys.now ++ dummy_rows self.now.labels.dummies.now) 0 height self.now.order.now) ≤ CAP }
        ensures { page.new.items ≡ page.old.items ++ lines_from (label_text self.now.labels.bytes.now self.now.labels.steps.now self.now.labels.dummies.now self.now.labels.turned.now) (self.now.ys.now ++ dummy_rows self.now.labels.dummies.now) 0 height self.now.order.now }
    {
        let mut rest = self.order;
        for r in 0..height {
            let (row, below) = rest.split_at(self.count_leading(r, rest));
            self.put_row(r, row, page);
            rest = below;
        }
    }

    // How many of the points in front stand in row r.
    fn count_leading(&self, r: usize, points: &[u16]) -> usize
        requires { Below (length self.now.ys.now + length self.now.labels.dummies.now) points.now }
        ensures { result ≡ length (leading (self.now.ys.now ++ dummy_rows self.now.labels.dummies.now) r points.now) }
    {
        for (i, p) in points.iter().enumerate() {
            if self.row_of(*p as usize) != r {
                return i;
            }
        }
        points.len()
    }

    // The line of row r, which has these points.
    fn put_row<const CAP: usize>(&self, r: usize, row: &[u16], page: &mut ArrayVec<u8, CAP>)
        requires row_below { Below (length self.now.ys.now + length self.now.labels.dummies.now) row.now }
        requires room { array_vec_len page.old + length (line (decimal r) (map (label_text self.now.labels.bytes.now self.now.labels.steps.now self.now.labels.dummies.now self.now.labels.turned.now) row.now)) ≤ CAP }
        ensures { page.new.items ≡ page.old.items ++ line (decimal r) (map (label_text self.now.labels.bytes.now self.now.labels.steps.now self.now.labels.dummies.now self.now.labels.turned.now) row.now) }
    {
        put_number(r, page);
        for p in row {
            self.labels.put_point(*p as usize, page);
        }
        page.push(b'\n');
    }

    // The row of point p, a step or a dummy.
    fn row_of(&self, p: usize) -> usize
        requires { p < length self.now.ys.now + length self.now.labels.dummies.now }
        ensures { result ≡ at (self.now.ys.now ++ dummy_rows self.now.labels.dummies.now) p }
    {
        if p < self.ys.len() {
            self.ys[p]
        } else {
            self.labels.dummies[p - self.ys.len()].row
        }
    }
}
