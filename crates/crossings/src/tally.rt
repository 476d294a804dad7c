// How many segments end at each position of a row, and in each block of positions. Nothing is counted in behind position `last`.
ghost use Rattle.std.specs.Prelude.{◌≡◌, ◌≤◌, ◌<◌, length, sum};
ghost use Rattle.buffers.specs.Lists.{Below};
ghost use Rattle.crossings.specs.Tally.{all_counted, right_of, right_of_all, raised, Blocked, NoneBehind};
ghost use Rattle.crossings.specs.Between.{EndsPlaced, lows};
ghost use Rattle.crossings.specs.Placing.{segment_limit};

// Positions in a block.
pub const BLOCK_SIZE: usize = 32;

// Lists of segments from the row above: the lower end of each, the position of each point, and how the lists go on.
#[derive(Clone, Copy)]
pub struct Ends<'a> {
    pub lower: &'a [usize],
    pub pos: &'a [usize],
    pub next: &'a [usize],
    pub ghost placed: { EndsPlaced lower.now pos.now next.now },
}

// What is counted in so far, by position and by block. Nothing is counted in behind position `last`.
#[derive(Clone, Copy)]
pub struct Tally<'a> {
    pub counts: &'a [usize],
    pub blocks: &'a [usize],
    pub last: usize,
    pub ghost blocked: { Blocked counts.now blocks.now },
    pub ghost none_behind: { NoneBehind counts.now last },
    pub ghost few: { all_counted counts.now < segment_limit },
}

// The entries of a part, added up.
fn sum_of(part: &[usize]) -> usize
    requires { sum part.now < segment_limit }
    ensures { result ≡ sum part.now }
{
    part.iter().sum()
}

impl Tally<'_> {
    // How many segments end right of position l: those in the rest of its block, and those in the blocks after it, up to `last`.
    fn count_right(&self, l: usize) -> usize
        ensures { result ≡ right_of self.now.counts.now l }
    {
        if self.last <= l {
            return 0;
        }
        let b = l / BLOCK_SIZE;
        let end = (b * BLOCK_SIZE + BLOCK_SIZE).min(self.last + 1);
        let near = sum_of(&self.counts[l + 1..end]);
        let far = sum_of(&self.blocks[b + 1..self.last / BLOCK_SIZE + 1]);
        near + far
    }

    // For each segment of the list from h on, how many of those counted in end right of it, added up.
    pub fn count_list(&self, ends: &Ends<'_>, h: usize) -> usize
        requires { h ≤ length ends.now.next.now }
        ensures { result ≡ right_of_all self.now.counts.now (lows ends.now.lower.now ends.now.pos.now ends.now.next.now h) }
    {
        let mut sum = 0;
        let mut x = h;
        // a list is walked by its links
        while 0 < x {
            let k = x - 1;
            let v = ends.lower[k];
            let l = ends.pos[v];
            sum += self.count_right(l);
            x = ends.next[k];
        }
        sum
    }
}

// The segments of the list from h on counted in. Answers the furthest position that is counted in now.
// No method of `Tally`, whose facts do not hold between the two writes.
pub fn raise_list(
    ends: &Ends<'_>,
    counts: &mut [usize],
    blocks: &mut [usize],
    last: usize,
    h: usize,
) -> usize
    requires blocked { Blocked counts.old blocks.old }
    requires none_behind { NoneBehind counts.old last }
    requires counts_bound { all_counted counts.old < segment_limit }
    requires h_in_bounds { h ≤ length ends.now.next.now }
    requires below { Below (length counts.old) (lows ends.now.lower.now ends.now.pos.now ends.now.next.now h) }
    ensures counts_after { counts.new ≡ raised (lows ends.now.lower.now ends.now.pos.now ends.now.next.now h) counts.old }
    ensures blocked_2 { Blocked counts.new blocks.new }
    ensures none_behind_2 { NoneBehind counts.new result }
{
    let mut furthest = last;
    let mut x = h;
    // a list is walked by its links
    while 0 < x {
        let k = x - 1;
        let v = ends.lower[k];
        let l = ends.pos[v];
        furthest = furthest.max(l);
        counts[l] += 1;
        let b = l / BLOCK_SIZE;
        blocks[b] += 1;
        x = ends.next[k];
    }
    furthest
}
