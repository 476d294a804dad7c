// The words in which calls answer C: several numbers in 64 bits. specs/Words.antt says which bits, and what the functions of the header
// read out of them.
#![tactic(auto)]

ghost use Rattle.std.specs.Prelude.{◌≡◌, [], ◌∷◌, ◌<◌};
ghost use Rattle.outcome.specs.Refusal.{numbers_of, step_of};
ghost use Rattle.words.specs.Words.{second, third, points_room, total_room, crossings_room, done_word, counts_word, name_word, chart_word, order_word};

use outcome::Refusal;

// Where the numbers of a word start: behind the low byte, behind the next, and the total and the crossings of a chart.
const SECOND: usize = 0x100;

const THIRD: usize = 0x10000;

const TOTAL: usize = 0x80000;

const CROSSINGS: usize = 0x100000000000;

// How many bytes or x were written as a word.
pub fn written_word(len: usize) -> u64
    requires { len < third }
    ensures { result ≡ done_word (0 ∷ len ∷ []) }
{
    (len * SECOND) as u64
}

// The counts of a table as a word.
pub fn counts_word(steps: usize, edges: usize) -> u64
    requires { (steps < second) × (edges < third) }
    ensures { result ≡ counts_word (0 ∷ steps ∷ edges ∷ []) }
{
    (steps * SECOND + edges * THIRD) as u64
}

// Where a name stands as a word.
pub fn name_word(start: usize, len: usize) -> u64
    requires { (start < third) × (len < second) }
    ensures { result ≡ name_word (0 ∷ start ∷ len ∷ []) }
{
    (len * SECOND + start * THIRD) as u64
}

// The numbers that go with a chart as a word.
pub fn chart_word(points: usize, total: usize, crossings: usize) -> u64
    requires { (points < points_room) × (total < total_room) × (crossings < crossings_room) }
    ensures { result ≡ chart_word (0 ∷ points ∷ total ∷ crossings ∷ []) }
{
    (points * SECOND + total * TOTAL + crossings * CROSSINGS) as u64
}

// The numbers that go with the order of a row as a word: the floor stands where a chart has its total.
pub fn order_word(points: usize, crossings: usize, floor: usize) -> u64
    requires { (points < points_room) × (crossings < crossings_room) × (floor < total_room) }
    ensures { result ≡ order_word (0 ∷ points ∷ crossings ∷ floor ∷ []) }
{
    chart_word(points, floor, crossings)
}

// A refusal as a word.
pub fn refusal_word(f: Refusal) -> u64
    requires { step_of f < second }
    ensures { result ≡ done_word (numbers_of f) }
{
    (f.number() + loop_step(f) * SECOND) as u64
}

// The step that comes with a loop; 0 with any other refusal.
// A number and no Option: the C interface has 0 there where no step comes with it.
fn loop_step(f: Refusal) -> usize
    ensures { result ≡ step_of f }
{
    match f {
        Refusal::Loop(step) => step,
        _ => 0,
    }
}
