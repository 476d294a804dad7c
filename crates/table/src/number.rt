// Numbers of one to three bytes, seven bits in each, lowest group first.
ghost use Rattle.std.specs.Prelude.{◌≡◌, ◌≤◌, IfOk};
ghost use Rattle.outcome.specs.declared.Refusal.TheVariants.{Overlong};
ghost use Rattle.table.specs.Number.{got, judge, takes, byte_at, number_at, number_in, read_of};

use crate::source::Source;
use outcome::Refusal;

impl Source<'_> {
    // The byte at a place.
    #[tactic(auto, unfolding(crate::specs::Number::byte_at))]
    pub(crate) fn byte_at(&self, at: usize) -> Result<(u8, usize), Refusal>
        ensures { read_of result ≡ byte_at self.now.bytes.now at }
    {
        let Some(&byte) = self.bytes.get(at) else {
            return Err(Refusal::Cut);
        };
        Ok((byte, at + 1))
    }

    // A number of several bytes up to a place, where the rule takes the last of them.
    fn several(&self, last: usize, v: usize, next: usize) -> Result<(usize, usize), Refusal>
        ensures { read_of result ≡ judge (takes self.now.rule last) Overlong (got v next) }
    {
        if self.rule.takes(last) {
            return Ok((v, next));
        }
        Err(Refusal::Overlong)
    }

    // The number that starts at a place.
    #[tactic(auto, unfolding(crate::specs::Number::number_at))]
    pub fn number_at(&self, at: usize) -> Result<(usize, usize), Refusal>
        ensures { read_of result ≡ number_at self.now.rule self.now.bytes.now at }
    {
        let (first, p) = self.byte_at(at)?;
        let a = first as usize;
        if a < 0x80 {
            return Ok((a, p));
        }
        let (second, q) = self.byte_at(p)?;
        let b = second as usize;
        if b < 0x80 {
            return self.several(b, a - 0x80 + b * 0x80, q);
        }
        let (third, next) = self.byte_at(q)?;
        let c = third as usize;
        if c < 0x80 {
            return self.several(c, a - 0x80 + (b - 0x80) * 0x80 + c * 0x4000, next);
        }
        Err(Refusal::Overlong)
    }

    // A number from low to high; any other is refused for the reason given.
    // Read and then judged, as are `name_byte_at` and `end_at`, each by a test and with a refusal of its own.
    #[tactic(auto, unfolding(crate::specs::Number::number_in))]
    pub fn number_in(
        &self,
        at: usize,
        low: usize,
        high: usize,
        reason: Refusal,
    ) -> Result<(usize, usize), Refusal>
        ensures value { read_of result ≡ number_in self.now.rule low high reason self.now.bytes.now at }
        ensures within { IfOk result (λ r. (low ≤ r.0) × (r.0 ≤ high)) }
    {
        let (v, next) = self.number_at(at)?;
        if v < low || high < v {
            return Err(reason);
        }
        Ok((v, next))
    }
}
