// Loops of edges: the lowest node that lies on one, or that there is none.
#![tactic(auto)]

pub mod settle;
mod sweep;

ghost use Rattle.std.specs.Prelude.{◌≡◌, ◌↔◌, [], ◌≤◌, ◌<◌, length, IsTrue};
ghost use Rattle.relaxation.specs.Network.{edges_of};
ghost use Rattle.acyclic.specs.Ends.{Gaps};
ghost use Rattle.acyclic.specs.Loops.{LoopIs, FoundIs};
ghost use Rattle.acyclic.specs.Scan.{Open};

use crate::settle::settle_rows;
use crate::sweep::find_from;
use relaxation::net::Arcs;

// The lowest node on a loop. Rows that settle show at once that there is none, so edges without a loop cost a few sweeps. The cap only
// says when to give that up. The rows and the marks are scratch.
pub fn find_loop(arcs: &Arcs<'_>, cap: usize, y: &mut [usize], seen: &mut [bool]) -> Option<usize>
    requires gaps { Gaps (length arcs.now.from.now) arcs.now.gap.now }
    requires n_in_bounds { arcs.now.n ≤ length y.old }
    requires n_in_bounds_2 { arcs.now.n ≤ length seen.old }
    ensures { FoundIs arcs.now.n (edges_of arcs.now.from.now arcs.now.to.now arcs.now.gap.now []) result }
{
    if settle_rows(arcs, cap, y) {
        return None;
    }
    lowest_on_loop(arcs, seen)
}

// The lowest node that edges lead back to. Each node in turn marks what it reaches, until it is reached itself or no edge is open. The
// marks are scratch. Document 01 asks for these nested loops, left by a label.
fn lowest_on_loop(arcs: &Arcs<'_>, seen: &mut [bool]) -> Option<usize>
    requires { arcs.now.n ≤ length seen.old }
    ensures { LoopIs arcs.now.n (edges_of arcs.now.from.now arcs.now.to.now [] []) result }
{
    'found: loop {
        for s in 0..arcs.n {
            seen.fill(false);
            let mut start = 0;
            while let Some(i) = find_from(arcs.from.len(), start, |i| is_open(arcs, s, seen, i)) {
                if arcs.to[i] == s {
                    break 'found Some(s);
                }
                seen[arcs.to[i]] = true;
                start = i;
            }
        }
        break 'found None;
    }
}

// Whether edge i is open: it would mark its head.
fn is_open(arcs: &Arcs<'_>, s: usize, seen: &[bool], i: usize) -> bool
    requires i_in_bounds { i < length arcs.now.from.now }
    requires n_in_bounds { arcs.now.n ≤ length seen.now }
    ensures { IsTrue result ↔ Open arcs.now.from.now arcs.now.to.now s seen.now i }
{
    !seen[arcs.to[i]] && (arcs.from[i] == s || seen[arcs.from[i]])
}
