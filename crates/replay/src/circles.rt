// Circle fits and deviations on numbers that are lent: where these, or the room, are too few for the arguments, the record is
// damaged.
use crate::calls::Answer;
use crate::curves::truth;
use geo::lent::{point_at, put_pair};
use geo::types::Point;

// The parameters, here and below, are those of the recorded call. An `Err` is handed on by a `match`, here and below: of a `map` the closure
// would borrow the outputs, and say no more.
pub fn are_points_collinear_3d(points: &[f64], tolerance: f64) -> Answer {
    match circle::circle::are_points_collinear_3d(points, tolerance) {
        Ok(b) => truth(b),
        Err(cause) => Some(Err(cause)),
    }
}

pub fn fit_circle_to_3_points(p: &[f64], out: &mut [f64]) -> Answer {
    if p.len() < 9 || out.len() < 3 {
        return None;
    }
    match circle::circle::fit_circle_to_3_points(point_at(p, 0), point_at(p, 1), point_at(p, 2)) {
        Ok(Some(circle)) => {
            put_pair(out, 0, circle.center);
            out[2] = circle.radius;
            Some(Ok(1))
        }
        Ok(None) => Some(Ok(0)),
        Err(cause) => Some(Err(cause)),
    }
}

pub fn fit_circle_to_points_3d(points: &[f64], out: &mut [f64]) -> Answer {
    if out.len() < 4 {
        return None;
    }
    match circle::circle::fit_circle_to_points_3d(points) {
        Ok(Some(circle)) => {
            put_pair(out, 0, circle.center);
            out[2] = circle.radius;
            out[3] = circle.error;
            Some(Ok(1))
        }
        Ok(None) => Some(Ok(0)),
        Err(cause) => Some(Err(cause)),
    }
}

// The centre stands behind the points.
pub fn project_circle_center_to_bisector(p: &[f64], out: &mut [f64]) -> Answer {
    if p.len() < 8 || out.len() < 2 {
        return None;
    }
    let center = Point { x: p[6], y: p[7] };
    match circle::circle::project_circle_center_to_bisector(
        point_at(p, 0),
        point_at(p, 1),
        center,
    ) {
        Ok(m) => {
            put_pair(out, 0, m);
            Some(Ok(0))
        }
        Err(cause) => Some(Err(cause)),
    }
}

// The count is the farthest point's index.
pub fn get_polyline_line_deviation(
    points: &[f64],
    start: usize,
    end: usize,
    out: &mut [f64],
) -> Answer {
    if out.len() < 1 {
        return None;
    }
    match deviations::deviations::get_polyline_line_deviation(points, start, end) {
        Ok(w) => {
            out[0] = w.dist;
            Some(Ok(w.index))
        }
        Err(cause) => Some(Err(cause)),
    }
}

// The circle stands before the points: its centre and its radius.
pub fn get_polyline_arc_deviation(numbers: &[f64], out: &mut [f64]) -> Answer {
    if numbers.len() < 3 || out.len() < 1 {
        return None;
    }
    let center = Point {
        x: numbers[0],
        y: numbers[1],
    };
    match deviations::deviations::get_polyline_arc_deviation(&numbers[3..], center, numbers[2]) {
        Ok(w) => {
            out[0] = w.dist;
            Some(Ok(w.index))
        }
        Err(cause) => Some(Err(cause)),
    }
}
