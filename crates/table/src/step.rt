// Steps: a kind with the number that it carries, and a name.
ghost use Rattle.std.specs.Prelude.{◌≡◌};
ghost use Rattle.table.specs.Number.{read_of};
ghost use Rattle.table.specs.Table.{adjust_at, wait_at, kind_at, name_byte_at, name_at, named_at, step_at};

use crate::limits::{
    MAX_KIND, MAX_MINUTES, MAX_NAME, MAX_NAME_BYTE, MAX_TOLERANCE, MIN_MINUTES, MIN_NAME,
    MIN_NAME_BYTE,
};
use crate::source::Source;
use crate::types::{Kind, Step};
use outcome::Refusal;

impl Source<'_> {
    // An adjustment's tolerance.
    #[tactic(auto, unfolding(crate::specs::Table::adjust_at))]
    fn adjust_at(&self, at: usize) -> Result<(Kind, usize), Refusal>
        ensures { read_of result ≡ adjust_at self.now.rule self.now.bytes.now at }
    {
        let (tolerance, next) = self.number_in(at, 0, MAX_TOLERANCE, Refusal::OutOfRange)?;
        Ok((Kind::Adjust(tolerance), next))
    }

    // A wait's minutes.
    #[tactic(auto, unfolding(crate::specs::Table::wait_at))]
    fn wait_at(&self, at: usize) -> Result<(Kind, usize), Refusal>
        ensures { read_of result ≡ wait_at self.now.rule self.now.bytes.now at }
    {
        let (minutes, next) = self.number_in(at, MIN_MINUTES, MAX_MINUTES, Refusal::OutOfRange)?;
        Ok((Kind::Wait(minutes), next))
    }

    // A kind with what it adds.
    #[tactic(auto, unfolding(crate::specs::Table::kind_at))]
    fn kind_at(&self, at: usize) -> Result<(Kind, usize), Refusal>
        ensures { read_of result ≡ kind_at self.now.rule self.now.bytes.now at }
    {
        let (k, next) = self.number_in(at, 0, MAX_KIND, Refusal::BadKind)?;
        match k {
            0 => Ok((Kind::Check, next)),
            1 => self.adjust_at(next),
            _ => self.wait_at(next),
        }
    }

    // A byte that a name may have.
    #[tactic(auto, unfolding(crate::specs::Table::name_byte_at))]
    fn name_byte_at(&self, at: usize) -> Result<(u8, usize), Refusal>
        ensures { read_of result ≡ name_byte_at self.now.bytes.now at }
    {
        let (byte, next) = self.byte_at(at)?;
        if byte < MIN_NAME_BYTE || MAX_NAME_BYTE < byte {
            return Err(Refusal::BadNameByte);
        }
        Ok((byte, next))
    }

    // A name of len bytes: its length and the place behind it.
    #[tactic(auto, unfolding(crate::specs::Table::name_at))]
    fn name_at(&self, len: usize, at: usize) -> Result<(usize, usize), Refusal>
        ensures { read_of result ≡ name_at self.now.bytes.now len at }
    {
        let mut next = at;
        for _ in 0..len {
            let (_, after) = self.name_byte_at(next)?;
            next = after;
        }
        Ok((len, next))
    }

    // The name of a step whose kind is known.
    #[tactic(auto, unfolding(crate::specs::Table::named_at))]
    fn named_at(&self, kind: Kind, at: usize) -> Result<(Step, usize), Refusal>
        ensures { read_of result ≡ named_at self.now.rule self.now.bytes.now kind at }
    {
        let (size, start) = self.number_in(at, MIN_NAME, MAX_NAME, Refusal::OutOfRange)?;
        let (len, next) = self.name_at(size, start)?;
        Ok((Step { kind, start, len }, next))
    }

    // A step: its kind, and its name.
    #[tactic(auto, unfolding(crate::specs::Table::step_at))]
    pub fn step_at(&self, at: usize) -> Result<(Step, usize), Refusal>
        ensures { read_of result ≡ step_at self.now.rule self.now.bytes.now at }
    {
        let (kind, next) = self.kind_at(at)?;
        self.named_at(kind, next)
    }
}
