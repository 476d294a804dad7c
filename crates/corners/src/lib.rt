// Corners and strokes in millimetres, for a screen. Every number is exact: nothing is rounded for an x or a row of up to 16 bits.
#![tactic(auto)]

ghost use Rattle.std.specs.Prelude.{◌≡◌, ◌<◌};
ghost use Rattle.corners.specs.Corners.{max_place, corner_of, Stands};
ghost use Rattle.corners.specs.Strokes.{stroke_to, end_of};

// Millimetres for each x, and for each row.
const X_WIDTH: f32 = 12.5;

const ROW_HEIGHT: f32 = 7.25;

// A place on the screen, from the left and from the top.
#[derive(Clone, Copy, Debug, PartialEq)]
pub struct Corner {
    pub x: f32,
    pub y: f32,
}

// What a pen does next: it goes to a corner without drawing, or it draws a line to it.
#[derive(Clone, Copy, Debug, PartialEq)]
pub enum Stroke {
    Move(Corner),
    Line(Corner),
}

// The corner of a point.
fn place_corner(x: usize, row: usize) -> Corner
    requires { (x < max_place) × (row < max_place) }
    ensures value { result ≡ corner_of x row }
    ensures stands { Stands result x row }
{
    Corner {
        x: (x as f32) * X_WIDTH,
        y: (row as f32) * ROW_HEIGHT,
    }
}

// The stroke to a point: a move where a line starts, else a line.
pub fn stroke_to(start: bool, x: usize, row: usize) -> Stroke
    requires { (x < max_place) × (row < max_place) }
    ensures value { result ≡ stroke_to start x row }
    ensures stands { Stands (end_of result) x row }
{
    let corner = place_corner(x, row);
    if start {
        return Stroke::Move(corner);
    }
    Stroke::Line(corner)
}
