// The lists of segments by point. They depend on no order, so one set of lists serves every pass and every count.
ghost use Rattle.std.specs.Prelude.{◌≡◌, length};
ghost use Rattle.buffers.specs.Lists.{Below};
ghost use Rattle.points.specs.Lists.{Lists, Linked};

// The segments on one side of the points, above or below: the point at the far end of each, and in lists by the point at the near end,
// where each list starts and how it goes on; and how many each point has.
#[derive(Clone, Copy)]
pub struct Side<'a> {
    pub far: &'a [usize],
    pub head: &'a [usize],
    pub next: &'a [usize],
    pub counts: &'a [usize],
    pub ghost listed: { Lists far.now head.now next.now },
}

// Each segment put in front of the list of its near end.
pub fn link_points(near: &[usize], head: &mut [usize], next: &mut [usize])
    requires below { Below (length head.old) near.now }
    requires next_len { length next.old ≡ length near.now }
    ensures { Linked near.now head.new next.new }
{
    head.fill(0);
    for (k, &p) in near.iter().enumerate() {
        next[k] = head[p];
        head[p] = k + 1;
    }
}
