// The Bezier functions, the midpoint and the direction of an arc, on numbers that are lent: where these, or the room, are too few
// for the arguments, the record is damaged.
ghost use Rattle.std.specs.Prelude.{◌+◌, ◌≤◌, length};

use crate::calls::Answer;
use geo::lent::{pair_at, point_at, put_pair, put_point};
use geo::types::{CubicBezier, Point};

// A truth as a count. Where no output is borrowed a `match` hands the refusal on too, as in the calls beside it.
pub fn truth(b: bool) -> Answer {
    Some(Ok(usize::from(b)))
}

// The parameters, here and below, are those of the recorded call. An `Err` is handed on by a `match`, here and below: of a `map` the closure
// would borrow the outputs, and say no more.
pub fn get_midpoint_3d(p: &[f64], out: &mut [f64]) -> Answer {
    if p.len() < 6 || out.len() < 3 {
        return None;
    }
    match geo::point::get_midpoint_3d(point_at(p, 0), point_at(p, 1)) {
        Ok(p) => {
            put_point(out, 0, p);
            Some(Ok(0))
        }
        Err(cause) => Some(Err(cause)),
    }
}

pub fn get_bezier_point_at(c: &[f64], t: f64, out: &mut [f64]) -> Answer {
    if c.len() < 8 || out.len() < 2 {
        return None;
    }
    match bezier::bezier::get_bezier_point_at(
        pair_at(c, 0),
        pair_at(c, 1),
        pair_at(c, 2),
        pair_at(c, 3),
        t,
    ) {
        Ok(p) => {
            put_pair(out, 0, p);
            Some(Ok(0))
        }
        Err(cause) => Some(Err(cause)),
    }
}

// A place is a slice and an index, as for `put_pair`. `exports` has the same four lines, with a contract: a crate for both would be longer.
fn put_curve(out: &mut [f64], at: usize, q: CubicBezier<Point>)
    requires { at + 8 ≤ length out.old }
{
    put_pair(out, at, q.0);
    put_pair(out, at + 2, q.1);
    put_pair(out, at + 4, q.2);
    put_pair(out, at + 6, q.3);
}

pub fn split_bezier(c: &[f64], t: f64, out: &mut [f64]) -> Answer {
    if c.len() < 8 || out.len() < 16 {
        return None;
    }
    match bezier::bezier::split_bezier(
        pair_at(c, 0),
        pair_at(c, 1),
        pair_at(c, 2),
        pair_at(c, 3),
        t,
    ) {
        Ok(halves) => {
            put_curve(out, 0, halves.left);
            put_curve(out, 8, halves.right);
            Some(Ok(0))
        }
        Err(cause) => Some(Err(cause)),
    }
}

pub fn is_bezier_flat(c: &[f64], tolerance_sq: f64) -> Answer {
    if c.len() < 8 {
        return None;
    }
    match subdivision::subdivision::is_bezier_flat(
        pair_at(c, 0),
        pair_at(c, 1),
        pair_at(c, 2),
        pair_at(c, 3),
        tolerance_sq,
    ) {
        Ok(b) => truth(b),
        Err(cause) => Some(Err(cause)),
    }
}

// The next function makes another call, with a resolution in place of the steps: a body for both would take the call as an argument, and
// be no shorter.
pub fn linearize_bezier(c: &[f64], steps: usize, out: &mut [f64]) -> Answer {
    if c.len() < 12 {
        return None;
    }
    Some(bezier::bezier::linearize_bezier(
        point_at(c, 0),
        point_at(c, 1),
        point_at(c, 2),
        point_at(c, 3),
        steps,
        out,
    ))
}

pub fn linearize_bezier_from_params(c: &[f64], resolution: f64, out: &mut [f64]) -> Answer {
    if c.len() < 12 {
        return None;
    }
    Some(bezier::bezier::linearize_bezier_from_params(
        point_at(c, 0),
        point_at(c, 1),
        point_at(c, 2),
        point_at(c, 3),
        resolution,
        out,
    ))
}

pub fn linearize_bezier_adaptive(
    c: &[f64],
    tolerance_sq: f64,
    depth: usize,
    out: &mut [f64],
) -> Answer {
    if c.len() < 8 {
        return None;
    }
    Some(subdivision::subdivision::linearize_bezier_adaptive(
        pair_at(c, 0),
        pair_at(c, 1),
        pair_at(c, 2),
        pair_at(c, 3),
        tolerance_sq,
        depth,
        out,
    ))
}

// The given tolerance where `given` is 1, else the source's own. `exports` has the same of C's flag, with a contract.
fn tolerance_by(given: usize, t: f64) -> Option<f64> {
    if given == 1 { Some(t) } else { None }
}

pub fn linearize_bezier_segment(c: &[f64], given: usize, t: f64, out: &mut [f64]) -> Answer {
    if c.len() < 12 {
        return None;
    }
    Some(subdivision::subdivision::linearize_bezier_segment(
        point_at(c, 0),
        point_at(c, 1),
        point_at(c, 2),
        point_at(c, 3),
        tolerance_by(given, t),
        out,
    ))
}

pub fn fit_cubic_bezier(points: &[f64], out: &mut [f64]) -> Answer {
    if out.len() < 8 {
        return None;
    }
    match fit_cubic::fit_cubic::fit_cubic_bezier(points) {
        Ok(Some(q)) => {
            put_curve(out, 0, q);
            Some(Ok(1))
        }
        Ok(None) => Some(Ok(0)),
        Err(cause) => Some(Err(cause)),
    }
}

// The centre stands before the points.
pub fn is_arc_clockwise(numbers: &[f64]) -> Answer {
    if numbers.len() < 2 {
        return None;
    }
    let center = Point {
        x: numbers[0],
        y: numbers[1],
    };
    match arc::arc::is_arc_clockwise(&numbers[2..], center) {
        Ok(b) => truth(b),
        Err(cause) => Some(Err(cause)),
    }
}
