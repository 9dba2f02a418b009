// Circles: whether points lie on a line, the circle through three points and that of least squares, and a centre moved to
// a chord's bisector.
ghost use Rattle.geo.specs.Lent.{pair};
ghost use Rattle.circle.specs.Calls.{collinear_call, through_call, fitted_call, projected_call};
ghost use Rattle.exports.specs.Plain.{plane_point, point3, is_found, through_numbers, circle_numbers, Gave, Told};

use geo::lent::{put_pair, put_point};
use geo::types::{Point, Point3D};

// Whether points lie on a straight line.
#[unsafe(no_mangle)]
pub extern "C" fn pz_are_points_collinear_3d(
    points: &[f64],
    tolerance: f64,
    collinear: &mut bool,
) -> u32
    ensures { Told (λ b. b) (collinear_call points.now tolerance) collinear.old collinear.new result }
{
    match circle::circle::are_points_collinear_3d(points, tolerance) {
        Ok(b) => {
            *collinear = b;
            0
        }
        Err(cause) => u32::from(cause),
    }
}

// The circle through three points, if there is one: its centre and its radius.
#[unsafe(no_mangle)]
pub extern "C" fn pz_fit_circle_to_3_points(
    p1x: f64,
    p1y: f64,
    p1z: f64,
    p2x: f64,
    p2y: f64,
    p2z: f64,
    p3x: f64,
    p3y: f64,
    p3z: f64,
    found: &mut bool,
    answer: &mut [f64; 3],
) -> u32
    ensures found { Told is_found (through_call (point3 p1x p1y p1z) (point3 p2x p2y p2z) (point3 p3x p3y p3z)) found.old found.new result }
    ensures answer { Gave through_numbers (through_call (point3 p1x p1y p1z) (point3 p2x p2y p2z) (point3 p3x p3y p3z)) answer.old answer.new result }
{
    let p1 = Point3D {
        x: p1x,
        y: p1y,
        z: p1z,
    };
    let p2 = Point3D {
        x: p2x,
        y: p2y,
        z: p2z,
    };
    let p3 = Point3D {
        x: p3x,
        y: p3y,
        z: p3z,
    };
    match circle::circle::fit_circle_to_3_points(p1, p2, p3) {
        Ok(Some(circle)) => {
            let three = Point3D {
                x: circle.center.x,
                y: circle.center.y,
                z: circle.radius,
            };
            put_point(answer, 0, three);
            *found = true;
            0
        }
        Ok(None) => {
            *found = false;
            0
        }
        Err(cause) => u32::from(cause),
    }
}

// The circle of least squares, if there is one: its centre, its radius and its greatest error.
#[unsafe(no_mangle)]
pub extern "C" fn pz_fit_circle_to_points_3d(
    points: &[f64],
    found: &mut bool,
    answer: &mut [f64; 4],
) -> u32
    ensures found { Told is_found (fitted_call points.now) found.old found.new result }
    ensures answer { Gave circle_numbers (fitted_call points.now) answer.old answer.new result }
{
    match circle::circle::fit_circle_to_points_3d(points) {
        Ok(Some(circle)) => {
            put_pair(answer, 0, circle.center);
            let rest = Point {
                x: circle.radius,
                y: circle.error,
            };
            put_pair(answer, 2, rest);
            *found = true;
            0
        }
        Ok(None) => {
            *found = false;
            0
        }
        Err(cause) => u32::from(cause),
    }
}

// A centre moved to the bisector of the chord from p1 to p2.
#[unsafe(no_mangle)]
pub extern "C" fn pz_project_circle_center_to_bisector(
    p1x: f64,
    p1y: f64,
    p1z: f64,
    p2x: f64,
    p2y: f64,
    p2z: f64,
    cx: f64,
    cy: f64,
    answer: &mut [f64; 2],
) -> u32
    ensures { Gave pair (projected_call (point3 p1x p1y p1z) (point3 p2x p2y p2z) (plane_point cx cy)) answer.old answer.new result }
{
    let p1 = Point3D {
        x: p1x,
        y: p1y,
        z: p1z,
    };
    let p2 = Point3D {
        x: p2x,
        y: p2y,
        z: p2z,
    };
    let center = Point { x: cx, y: cy };
    match circle::circle::project_circle_center_to_bisector(p1, p2, center) {
        Ok(p) => {
            put_pair(answer, 0, p);
            0
        }
        Err(cause) => u32::from(cause),
    }
}
