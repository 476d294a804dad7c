// The text of a point: of a step its name and its kind, of a dummy the number of its edge.
#![tactic(auto)]

pub mod text;

ghost use Rattle.std.specs.Prelude.{◌≡◌, ◌∷◌, ◌++◌, ◌+◌, ◌≤◌, ◌<◌, length};
ghost use Rattle.arrayvec.specs.ArrayVec.{array_vec_len};
ghost use Rattle.labels.specs.Text.{blank};
ghost use Rattle.labels.specs.Labels.{label_text, Labelled, kind_text, step_text, dummy_text};

use crate::text::{put_marked, put_text};
use arrayvec::ArrayVec;
use points::dummy::Dummy;
use table::types::{Kind, Step};

// What the points of a chart are: the steps of a table, whose names stand in its bytes, and behind them the dummies, whose edges are
// turned or kept.
#[derive(Clone, Copy)]
pub struct Labels<'a> {
    pub bytes: &'a [u8],
    pub steps: &'a [Step],
    pub dummies: &'a [Dummy],
    pub turned: &'a [bool],
    ghost labelled: { Labelled bytes.now steps.now dummies.now turned.now },
}

impl Labels<'_> {
    // Point p behind a blank: a step, or a dummy.
    pub fn put_point<const CAP: usize>(&self, p: usize, page: &mut ArrayVec<u8, CAP>)
        requires p_in_bounds { p < length self.now.steps.now + length self.now.dummies.now }
        requires room { array_vec_len page.old + length (blank ∷ label_text self.now.bytes.now self.now.steps.now self.now.dummies.now self.now.turned.now p) ≤ CAP }
        ensures { page.new.items ≡ page.old.items ++ blank ∷ label_text self.now.bytes.now self.now.steps.now self.now.dummies.now self.now.turned.now p }
    {
        page.push(b' ');
        if p < self.steps.len() {
            put_step(self.bytes, self.steps[p], page);
        } else {
            let edge = self.dummies[p - self.steps.len()].edge;
            put_dummy(edge, self.turned[edge], page);
        }
    }
}

// A step, whose name is a stretch of the table.
fn put_step<const CAP: usize>(bytes: &[u8], step: Step, page: &mut ArrayVec<u8, CAP>)
    requires len_in_bounds { step.start + step.len ≤ length bytes.now }
    requires room { array_vec_len page.old + length (step_text bytes.now step) ≤ CAP }
    ensures { page.new.items ≡ page.old.items ++ step_text bytes.now step }
{
    put_text(&bytes[step.start..step.start + step.len], page);
    page.push(b'=');
    put_kind(step.kind, page);
}

// The letter of a kind, and the number that it carries.
fn put_kind<const CAP: usize>(kind: Kind, page: &mut ArrayVec<u8, CAP>)
    requires room { array_vec_len page.old + length (kind_text kind) ≤ CAP }
    ensures { page.new.items ≡ page.old.items ++ kind_text kind }
{
    match kind {
        Kind::Check => page.push(b'C'),
        Kind::Adjust(tolerance) => put_marked(b'A', tolerance, page),
        Kind::Wait(minutes) => put_marked(b'W', minutes, page),
    }
}

// A dummy of an edge: a sign that tells a turned edge from a kept one, and the edge's number.
fn put_dummy<const CAP: usize>(edge: usize, turned: bool, page: &mut ArrayVec<u8, CAP>)
    requires room { array_vec_len page.old + length (dummy_text turned edge) ≤ CAP }
    ensures { page.new.items ≡ page.old.items ++ dummy_text turned edge }
{
    let sign = if turned { b'^' } else { b'|' };
    put_marked(sign, edge, page);
}
