// Strokes for C: a struct of plain numbers that is handed over by value, since one word has no room for a case and two floats.
#![tactic(auto)]

ghost use Rattle.std.specs.Prelude.{◌≡◌};
ghost use Rattle.plain.specs.Plain.{bare_word, plain_stroke, plain_answer, StepFits};

use corners::Stroke;
use outcome::Refusal;
use words::refusal_word;

// The words of a move and of a line: their cases in the second byte.
const MOVE: u64 = 0x100;

const LINE: u64 = 0x200;

// The low byte of the answer is 0, or the number of the refusal, as in other answers; the byte above it has the case.
#[repr(C)]
#[derive(Clone, Copy, Debug, PartialEq)]
pub struct PlainStroke {
    pub answer: u64,
    pub x: f32,
    pub y: f32,
}

impl PlainStroke {
    // A word without a corner.
    fn bare(answer: u64) -> PlainStroke
        ensures { result ≡ bare_word answer }
    {
        PlainStroke {
            answer,
            x: 0.0,
            y: 0.0,
        }
    }
}

impl From<Stroke> for PlainStroke {
    ghost from_gives = { λ s r. r ≡ plain_stroke s };

    fn from(s: Stroke) -> PlainStroke {
        let (answer, corner) = match s {
            Stroke::Move(c) => (MOVE, c),
            Stroke::Line(c) => (LINE, c),
        };
        PlainStroke {
            answer,
            x: corner.x,
            y: corner.y,
        }
    }
}

// An answer as plain numbers.
pub fn plain_answer(a: Result<Option<Stroke>, Refusal>) -> PlainStroke
    requires { StepFits a }
    ensures { result ≡ plain_answer a }
{
    match a {
        Ok(Some(stroke)) => PlainStroke::from(stroke),
        Ok(None) => PlainStroke::bare(0),
        Err(f) => PlainStroke::bare(refusal_word(f)),
    }
}
