// src/geo/types.rs: points, the cubic curve and the command, with the part of each that is carried over.
ghost use Rattle.std.specs.Prelude.{◌≡◌};
ghost use Rattle.geo.specs.Lent.{end_of};
ghost use Rattle.geo.specs.Vector.{flatten};

// A position in the plane.
#[derive(Clone, Copy)]
pub struct Point {
    pub x: f64,
    pub y: f64,
}

// A recorded position, an offset or a normal.
#[derive(Clone, Copy)]
pub struct Point3D {
    pub x: f64,
    pub y: f64,
    pub z: f64,
}

impl Point3D {
    // What stands in the unused numbers of a lent command, and where a course without a Move starts.
    pub const ZERO: Point3D = Point3D {
        x: 0.0,
        y: 0.0,
        z: 0.0,
    };

    // The position in the plane.
    pub fn truncate(self) -> Point
        ensures { result ≡ flatten self }
    {
        Point {
            x: self.x,
            y: self.y,
        }
    }
}

// A cubic Bezier curve, in the plane or in space: start, two controls, end.
#[derive(Clone, Copy)]
pub struct CubicBezier<P>(pub P, pub P, pub P, pub P);

// How often a part of a curve may be halved: "Subdivision depth: at most 10".
pub const MOST_DEPTH: usize = 10;

// How many steps of a curve may be asked for: "step count: 1 to 2,048".
pub const MOST_ASKED: usize = 2048;

// How many steps may follow from a resolution, as a float: row 8, "above 800".
pub const MOST_STEPS: f64 = 800.0;

// One step of a course. The kinds are numbered 0 to 3 in this order.
#[derive(Clone, Copy)]
pub enum Command {
    Move {
        end: Point3D,
    },
    Line {
        end: Point3D,
    },
    Arc {
        end: Point3D,
        center_offset: Point3D,
        normal: Point3D,
    },
    Bezier {
        end: Point3D,
        control1: Point3D,
        control2: Point3D,
    },
}

impl Command {
    // Where the command ends.
    pub fn end_point(self) -> Point3D
        ensures { result ≡ end_of self }
    {
        match self {
            Command::Move { end } => end,
            Command::Line { end } => end,
            Command::Arc {
                end,
                center_offset: _,
                normal: _,
            } => end,
            Command::Bezier {
                end,
                control1: _,
                control2: _,
            } => end,
        }
    }
}
