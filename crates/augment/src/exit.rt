// The way out of the marked set: an edge that leaves it, the one with the least slack.
ghost use Rattle.std.specs.Prelude.{◌≡◌, ◌+◌, ◌≤◌, ◌<◌, length};
ghost use Rattle.graph.specs.Rows.{at};
ghost use Rattle.relaxation.specs.Certificate.{Held};
ghost use Rattle.augment.specs.Search.{SlackIs, SlackIsAt, LeastIs};

use crate::open::Cursor;
use crate::residual::Residual;
use relaxation::net::{Arcs, Side};
use relaxation::scratch::{Hints, Tree};

// The slack that stands for no edge at all: a number, so that one comparison tells which of two slacks is the least.
const NO_SLACK: usize = 18446744073709551615;

// The slack of an edge where it leaves the marked set.
fn slack_of(rf: usize, rt: usize, lo: usize, g: usize, hi: usize, f: usize) -> usize
    requires { lo + g ≤ hi }
    ensures { SlackIs rf rt lo g hi f result }
{
    if rf > 0 {
        if rt > 0 {
            return NO_SLACK;
        }
        return hi - lo - g;
    }
    if rt == 0 {
        return NO_SLACK;
    }
    if f == 0 {
        return NO_SLACK;
    }
    0
}

// An edge that leaves the marked set, and its slack.
#[derive(Clone, Copy, Debug, Default, PartialEq, Eq)]
pub struct Exit {
    pub edge: usize,
    pub slack: usize,
}

// The exit that was found, and how far the lists are read.
#[derive(Clone, Copy, Debug, Default, PartialEq, Eq)]
pub struct Search {
    pub exit: Exit,
    outs: Cursor,
    ins: Cursor,
}

impl Residual<'_, '_> {
    // The slack of edge i.
    fn slack_at(&self, i: usize) -> usize
        requires { i < length self.now.arcs.from.now }
        ensures { SlackIsAt self.now.arcs.from.now self.now.arcs.to.now self.now.arcs.gap.now self.now.flow.now self.now.y.now self.now.rank.now i result }
    {
        let f = self.arcs.from[i];
        let t = self.arcs.to[i];
        slack_of(
            self.rank[f],
            self.rank[t],
            self.y[f],
            self.arcs.gap[i],
            self.y[t],
            self.flow[i],
        )
    }

    // The least slack of the edges that leave the marked set, and an edge that has it. By number, which is part of the answer.
    fn least_slack(&self) -> Exit
        ensures { LeastIs self.now.arcs.from.now self.now.arcs.to.now self.now.arcs.gap.now self.now.flow.now self.now.y.now self.now.rank.now result.edge result.slack }
    {
        let mut best = NO_SLACK;
        let mut edge = 0;
        for i in 0..self.arcs.from.len() {
            let r = self.slack_at(i);
            if r == 0 {
                return Exit { edge: i, slack: 0 };
            }
            if r < best {
                best = r;
                edge = i;
            }
        }
        Exit { edge, slack: best }
    }
}

// An edge that leaves the marked set with the least slack: one of a list, edges out of marked nodes first, or else what a look at all
// edges gives. Rows and flow are parameters of their own, since of a slice in a struct the caller knows only what a clause says.
pub fn next_exit<'s>(
    arcs: &Arcs<'_>,
    flow: &'s [usize],
    y: &'s [usize],
    tree: &'s Tree<'_>,
    hints: &Hints<'_>,
    marked: usize,
    search: Search,
) -> Search
    requires n_in_bounds { arcs.now.n ≤ length y.now }
    requires n_in_bounds_2 { arcs.now.n ≤ length tree.now.rank.now }
    requires flow_len { length flow.now ≡ length arcs.now.from.now }
    requires held { Held arcs.now.from.now arcs.now.to.now arcs.now.gap.now flow.now (at y.now) }
    ensures { LeastIs arcs.now.from.now arcs.now.to.now arcs.now.gap.now flow.now y.now tree.now.rank.now result.exit.edge result.exit.slack }
{
    let residual = Residual {
        arcs: *arcs,
        flow,
        y,
        rank: tree.rank,
    };
    let (ahead, outs) = residual.propose_edge(
        &hints.outs,
        Side::Heads,
        hints.queue,
        marked,
        search.outs,
    );
    if let Some(edge) = ahead {
        let exit = Exit { edge, slack: 0 };
        return Search {
            exit,
            outs,
            ins: search.ins,
        };
    }
    let (back, ins) = residual.propose_edge(
        &hints.ins,
        Side::Tails,
        hints.queue,
        marked,
        search.ins,
    );
    if let Some(edge) = back {
        let exit = Exit { edge, slack: 0 };
        return Search { exit, outs, ins };
    }
    Search {
        exit: residual.least_slack(),
        outs,
        ins,
    }
}
