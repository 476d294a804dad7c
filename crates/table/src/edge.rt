// Edges: two different steps, a gap, a weight and a firmness.
ghost use Rattle.std.specs.Prelude.{◌≡◌, ◌≤◌};
ghost use Rattle.table.specs.Limits.{max_steps};
ghost use Rattle.table.specs.Number.{read_of};
ghost use Rattle.table.specs.Table.{end_at, edge_between, edge_at, firmness_at, table_edge_at};

use crate::limits::{MAX_GAP, MAX_WEIGHT, MIN_EDITION, MIN_GAP, SOFT};
use crate::source::Source;
use graph::{Edge, TableEdge};
use outcome::Refusal;

impl Source<'_> {
    // The number of a step, of n steps, that is not `but`.
    #[tactic(auto, unfolding(crate::specs::Table::end_at))]
    fn end_at(&self, n: usize, but: usize, at: usize) -> Result<(usize, usize), Refusal>
        ensures { read_of result ≡ end_at self.now.rule self.now.bytes.now n but at }
    {
        let (v, next) = self.number_at(at)?;
        if n <= v || v == but {
            return Err(Refusal::BadEnd);
        }
        Ok((v, next))
    }

    // The gap and the weight of an edge whose ends are known.
    #[tactic(auto, unfolding(crate::specs::Table::edge_between))]
    fn edge_between(&self, from: usize, to: usize, at: usize) -> Result<(Edge, usize), Refusal>
        ensures { read_of result ≡ edge_between self.now.rule self.now.bytes.now from to at }
    {
        let (gap, p) = self.number_in(at, MIN_GAP, MAX_GAP, Refusal::OutOfRange)?;
        let (weight, next) = self.number_in(p, 0, MAX_WEIGHT, Refusal::OutOfRange)?;
        let edge = Edge {
            from,
            to,
            gap,
            weight,
        };
        Ok((edge, next))
    }

    // An edge of a table of n steps, without its firmness.
    #[tactic(auto, unfolding(crate::specs::Table::edge_at))]
    fn edge_at(&self, n: usize, at: usize) -> Result<(Edge, usize), Refusal>
        ensures { read_of result ≡ edge_at self.now.rule self.now.bytes.now n at }
    {
        let (from, p) = self.end_at(n, n, at)?;
        let (to, next) = self.end_at(n, from, p)?;
        self.edge_between(from, to, next)
    }

    // The firmness of an edge, which the first edition has not: its edges are must edges.
    #[tactic(auto, unfolding(crate::specs::Table::firmness_at))]
    fn firmness_at(&self, edition: usize, at: usize) -> Result<(usize, usize), Refusal>
        ensures { read_of result ≡ firmness_at self.now.rule self.now.bytes.now edition at }
    {
        if edition == MIN_EDITION {
            return Ok((0, at));
        }
        self.number_in(at, 0, SOFT, Refusal::BadFirmness)
    }

    // An edge of a table of n steps, with its firmness. Each of its numbers was judged, so that it fits a byte.
    #[tactic(auto, using(crate::proofs::FairLaws::edge_narrow), unfolding(crate::specs::Table::table_edge_at))]
    pub fn table_edge_at(
        &self,
        edition: usize,
        n: usize,
        at: usize,
    ) -> Result<(TableEdge, usize), Refusal>
        requires { n ≤ max_steps }
        ensures { read_of result ≡ table_edge_at self.now.rule self.now.bytes.now edition n at }
    {
        let (own, p) = self.edge_at(n, at)?;
        let (firmness, next) = self.firmness_at(edition, p)?;
        let edge = TableEdge {
            from: own.from as u8,
            to: own.to as u8,
            gap: own.gap as u8,
            weight: own.weight as u8,
            soft: firmness == SOFT,
        };
        Ok((edge, next))
    }
}
