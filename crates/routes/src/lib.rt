// The lines of a chart as a pen follows them: the point that the stroke at an index goes to. Of x and millimetres nothing is known here.
#![tactic(auto)]

ghost use Rattle.std.specs.Prelude.{◌≡◌, ◌+◌, ◌≤◌, ◌<◌, Some, length, slice_get};
ghost use Rattle.spacing.specs.Limits.{max_xs};
ghost use Rattle.routes.specs.Routes.{line_visits, visits_from};
ghost use Rattle.routes.specs.Finding.{Routable};

use merging::MergedEdge;
use points::count_between;

// A stroke by the point that it goes to, and whether a line of the chart starts there.
#[derive(Clone, Copy, Debug, PartialEq, Eq)]
pub struct Visit {
    pub start: bool,
    pub point: usize,
}

// What is at an index of the strokes of all lines, which come one after another.
pub fn find_visit(
    rows: &[usize],
    lines: &[MergedEdge],
    turned: &[bool],
    index: usize,
) -> Option<Visit>
    requires { Routable rows.now lines.now turned.now }
    ensures { result ≡ slice_get (visits_from rows.now turned.now (length rows.now) lines.now) index }
{
    let mut dummy = rows.len();
    let mut left = index;
    for line in lines {
        let flag = turned[line.first as usize];
        let drawn = line.directed(flag);
        let k = count_between(rows, drawn.from, drawn.to);
        if left < k + 2 {
            return Some(visit_line(*line, flag, dummy, k, left));
        }
        left -= k + 2;
        dummy += k;
    }
    None
}

// What is at an index of the strokes of a line with k dummies, which are numbered from d on.
#[tactic(auto, using(crate::proofs::VisitLaws::line_start, crate::proofs::VisitLaws::line_end, crate::proofs::VisitLaws::line_down, crate::proofs::VisitLaws::line_up))]
fn visit_line(line: MergedEdge, turned: bool, d: usize, k: usize, at: usize) -> Visit
    requires k_bound { d + k ≤ max_xs }
    requires at_bound { at < k + 2 }
    ensures { slice_get (line_visits turned line d k) at ≡ Some result }
{
    if at == 0 {
        return Visit {
            start: true,
            point: line.from as usize,
        };
    }
    let point = if at == k + 1 {
        line.to as usize
    } else if turned {
        d + k - at
    } else {
        d + at - 1
    };
    Visit {
        start: false,
        point,
    }
}
