// The steps of a table in their fewest bytes, behind their count.
ghost use Rattle.std.specs.Prelude.{◌≡◌, ◌++◌, map, ◌+◌, ◌≤◌, length, take, drop};
ghost use Rattle.table.specs.Limits.{max_name};
ghost use Rattle.table.specs.Fair.{KindInRange, FairStep};
ghost use Rattle.arrayvec.specs.ArrayVec.{array_vec_len};
ghost use Rattle.encoding.specs.Said.{said_step};
ghost use Rattle.encoding.specs.Shortest.{short_kind, short_name, short_step, short_list};
ghost use Rattle.encoding.specs.Writable.{WritableSteps};

use crate::number::{write_number, write_pair};
use arrayvec::ArrayVec;
use labels::text::put_text;
use table::types::{Kind, Step};

// A kind and the number that it carries. The numbers of kinds are the format's.
fn write_kind<const CAP: usize>(kind: Kind, page: &mut ArrayVec<u8, CAP>)
    requires kind_in_range { KindInRange kind }
    requires room { array_vec_len page.old + length (short_kind kind) ≤ CAP }
    ensures { page.new.items ≡ page.old.items ++ short_kind kind }
{
    match kind {
        Kind::Check => write_number(0, page),
        Kind::Adjust(tolerance) => write_pair(1, tolerance, page),
        Kind::Wait(minutes) => write_pair(2, minutes, page),
    }
}

// A name behind its length.
#[tactic(auto, unfolding(crate::specs::Shortest::short_name), using(crate::proofs::ShortLaws::bytes_one))]
fn write_name<const CAP: usize>(name: &[u8], page: &mut ArrayVec<u8, CAP>)
    requires len_le_max_name { length name.now ≤ max_name }
    requires room { array_vec_len page.old + length (short_name name.now) ≤ CAP }
    ensures { page.new.items ≡ page.old.items ++ short_name name.now }
{
    write_number(name.len(), page);
    put_text(name, page);
}

// A step, whose name is a stretch of the table.
#[tactic(auto, unfolding(crate::specs::Shortest::short_step))]
fn write_step<const CAP: usize>(bytes: &[u8], step: Step, page: &mut ArrayVec<u8, CAP>)
    requires fair_step { FairStep bytes.now step }
    requires room { array_vec_len page.old + length (short_step (said_step bytes.now step)) ≤ CAP }
    ensures { page.new.items ≡ page.old.items ++ short_step (said_step bytes.now step) }
{
    write_kind(step.kind, page);
    write_name(&bytes[step.start..step.start + step.len], page);
}

// Steps behind their count. A loop of its own: a closure that puts an item on the page would need a clause longer than the loop.
#[tactic(auto, unfolding(crate::specs::Shortest::short_list))]
pub fn write_steps<const CAP: usize>(bytes: &[u8], steps: &[Step], page: &mut ArrayVec<u8, CAP>)
    requires writable_steps { WritableSteps bytes.now steps.now }
    requires room { array_vec_len page.old + length (short_list short_step (map (said_step bytes.now) steps.now)) ≤ CAP }
    ensures { page.new.items ≡ page.old.items ++ short_list short_step (map (said_step bytes.now) steps.now) }
{
    write_number(steps.len(), page);
    for step in steps {
        write_step(bytes, *step, page);
    }
}
