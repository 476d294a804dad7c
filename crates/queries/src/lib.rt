// What a caller asks about a table: its counts, and the name of a step.
//
// Every call takes any bytes, ends, and has no condition. Its contract puts its whole answer, told in numbers (0 and its values, or the
// number of the refusal), equal to what a definition of specs/Calls.antt makes of the bytes.
#![tactic(auto)]

pub mod types;

ghost use Rattle.std.specs.Prelude.{◌≡◌};
ghost use Rattle.outcome.specs.Refusal.{refusal_in};
ghost use Rattle.queries.specs.Calls.{counts_numbers, counts_call, name_numbers, name_found, name_call, stretch_of, PartOf};

use crate::types::{Counts, Name};
use outcome::Refusal;
use reading::read_table;
use table::types::Table;

// How many steps and edges a table has. Refuses as read_table does.
#[tactic(auto, using(crate::proofs::CountLaws::counted, crate::proofs::CountLaws::counts_refused))]
pub fn count_table(bytes: &[u8]) -> Result<Counts, Refusal>
    ensures { counts_numbers result ≡ counts_call bytes.now }
{
    let Table { steps, edges } = read_table(bytes)?;
    Ok(Counts {
        steps: steps.len(),
        edges: edges.len(),
    })
}

// Where the name of step i stands. Refuses as read_table does, and then where the table has no step i.
#[tactic(auto, using(crate::proofs::NameLaws::missing, crate::proofs::NameLaws::found, crate::proofs::NameLaws::name_refused))]
pub fn find_name(bytes: &[u8], i: usize) -> Result<Name, Refusal>
    ensures { name_numbers result ≡ name_call bytes.now i }
{
    let table = read_table(bytes)?;
    if table.steps.len() <= i {
        return Err(Refusal::NoStep);
    }
    let step = table.steps[i];
    Ok(Name {
        start: step.start,
        len: step.len,
    })
}

// The name of step i, as that part of the table. An empty part means refused: refuse_name tells the number.
// No Option: document 01 asks for a part of the lent table.
pub fn name_step(bytes: &[u8], i: usize) -> &[u8]
    ensures { PartOf bytes.entry (stretch_of (name_found bytes.now i)) result }
{
    match find_name(bytes, i) {
        Ok(name) => {
            let end = name.start + name.len;
            &bytes[name.start..end]
        }
        Err(_) => &bytes[..0],
    }
}

// The number of the refusal of find_name and name_step, or 0 where there is a name.
// A number and no Option: document 01 has 0 where there is a name.
pub fn refuse_name(bytes: &[u8], i: usize) -> usize
    ensures { result ≡ refusal_in (name_call bytes.now i) }
{
    match find_name(bytes, i) {
        Ok(_) => 0,
        Err(f) => f.number(),
    }
}
