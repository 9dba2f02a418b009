// Bezier curves: four points, start, two controls, end.
ghost use Rattle.std.specs.Prelude.{◌≡◌, ◌+◌, ◌<◌, length};
ghost use Rattle.std.proofs.lemmas.List.Edits.{sets};
ghost use Rattle.geo.specs.Lent.{pair, triple, flat};
ghost use Rattle.bezier.specs.Linearize.{six};
ghost use Rattle.bezier.specs.Calls.{point_call, split_call, linearize_call, param_call};
ghost use Rattle.subdivision.specs.Calls.{flat_call, adaptive_call, segment_call};
ghost use Rattle.fit_cubic.specs.Calls.{cubic_call};
ghost use Rattle.exports.specs.Plain.{plane_point, point3, eight, sixteen, is_found, curve_numbers, tolerance_by, Gave, Told, Listed};

use crate::counts::hand_cause;
use geo::lent::put_pair;
use geo::types::{CubicBezier, Point, Point3D};

// The point at t of a curve in the plane.
#[unsafe(no_mangle)]
pub extern "C" fn pz_get_bezier_point_at(
    p0x: f64,
    p0y: f64,
    c1x: f64,
    c1y: f64,
    c2x: f64,
    c2y: f64,
    p1x: f64,
    p1y: f64,
    t: f64,
    answer: &mut [f64; 2],
) -> u32
    ensures { Gave pair (point_call (plane_point p0x p0y) (plane_point c1x c1y) (plane_point c2x c2y) (plane_point p1x p1y) t) answer.old answer.new result }
{
    let p0 = Point { x: p0x, y: p0y };
    let c1 = Point { x: c1x, y: c1y };
    let c2 = Point { x: c2x, y: c2y };
    let p1 = Point { x: p1x, y: p1y };
    match bezier::bezier::get_bezier_point_at(p0, c1, c2, p1, t) {
        Ok(p) => {
            put_pair(answer, 0, p);
            0
        }
        Err(cause) => u32::from(cause),
    }
}

// Writes the eight numbers of a curve from `at` on. `replay` has the same without a contract: a crate for both would be longer.
fn put_curve(out: &mut [f64], at: usize, q: CubicBezier<Point>)
    requires { at + 7 < length out.old }
    ensures { out.new ≡ sets out.old at (eight q) }
{
    put_pair(out, at, q.0);
    put_pair(out, at + 2, q.1);
    put_pair(out, at + 4, q.2);
    put_pair(out, at + 6, q.3);
}

// The two parts of a curve at t.
#[unsafe(no_mangle)]
pub extern "C" fn pz_split_bezier(
    p0x: f64,
    p0y: f64,
    c1x: f64,
    c1y: f64,
    c2x: f64,
    c2y: f64,
    p1x: f64,
    p1y: f64,
    t: f64,
    answer: &mut [f64; 16],
) -> u32
    ensures { Gave sixteen (split_call (plane_point p0x p0y) (plane_point c1x c1y) (plane_point c2x c2y) (plane_point p1x p1y) t) answer.old answer.new result }
{
    let p0 = Point { x: p0x, y: p0y };
    let c1 = Point { x: c1x, y: c1y };
    let c2 = Point { x: c2x, y: c2y };
    let p1 = Point { x: p1x, y: p1y };
    match bezier::bezier::split_bezier(p0, c1, c2, p1, t) {
        Ok(halves) => {
            put_curve(answer, 0, halves.left);
            put_curve(answer, 8, halves.right);
            0
        }
        Err(cause) => u32::from(cause),
    }
}

// Whether a curve is flat enough.
#[unsafe(no_mangle)]
pub extern "C" fn pz_is_bezier_flat(
    p0x: f64,
    p0y: f64,
    c1x: f64,
    c1y: f64,
    c2x: f64,
    c2y: f64,
    p1x: f64,
    p1y: f64,
    tolerance_sq: f64,
    flat: &mut bool,
) -> u32
    ensures { Told (λ b. b) (flat_call (plane_point p0x p0y) (plane_point c1x c1y) (plane_point c2x c2y) (plane_point p1x p1y) tolerance_sq) flat.old flat.new result }
{
    let p0 = Point { x: p0x, y: p0y };
    let c1 = Point { x: c1x, y: c1y };
    let c2 = Point { x: c2x, y: c2y };
    let p1 = Point { x: p1x, y: p1y };
    match subdivision::subdivision::is_bezier_flat(p0, c1, c2, p1, tolerance_sq) {
        Ok(b) => {
            *flat = b;
            0
        }
        Err(cause) => u32::from(cause),
    }
}

// A curve as steps of equal parameter.
#[unsafe(no_mangle)]
pub extern "C" fn pz_linearize_bezier(
    p0x: f64,
    p0y: f64,
    p0z: f64,
    c1x: f64,
    c1y: f64,
    c1z: f64,
    c2x: f64,
    c2y: f64,
    c2z: f64,
    p1x: f64,
    p1y: f64,
    p1z: f64,
    num_steps: usize,
    out: &mut [f64],
    count: &mut usize,
) -> u32
    ensures { Listed (flat six) (linearize_call (point3 p0x p0y p0z) (point3 c1x c1y c1z) (point3 c2x c2y c2z) (point3 p1x p1y p1z) num_steps (length out.old)) out.old out.new count.old count.new result }
{
    let p0 = Point3D {
        x: p0x,
        y: p0y,
        z: p0z,
    };
    let c1 = Point3D {
        x: c1x,
        y: c1y,
        z: c1z,
    };
    let c2 = Point3D {
        x: c2x,
        y: c2y,
        z: c2z,
    };
    let p1 = Point3D {
        x: p1x,
        y: p1y,
        z: p1z,
    };
    hand_cause(
        bezier::bezier::linearize_bezier(p0, c1, c2, p1, num_steps, out),
        count,
    )
}

// A curve from a command's numbers, as steps of the resolution.
#[unsafe(no_mangle)]
pub extern "C" fn pz_linearize_bezier_from_params(
    ex: f64,
    ey: f64,
    ez: f64,
    c1x: f64,
    c1y: f64,
    c1z: f64,
    c2x: f64,
    c2y: f64,
    c2z: f64,
    sx: f64,
    sy: f64,
    sz: f64,
    resolution: f64,
    out: &mut [f64],
    count: &mut usize,
) -> u32
    ensures { Listed (flat six) (param_call (point3 ex ey ez) (point3 c1x c1y c1z) (point3 c2x c2y c2z) (point3 sx sy sz) resolution (length out.old)) out.old out.new count.old count.new result }
{
    let end = Point3D {
        x: ex,
        y: ey,
        z: ez,
    };
    let c1 = Point3D {
        x: c1x,
        y: c1y,
        z: c1z,
    };
    let c2 = Point3D {
        x: c2x,
        y: c2y,
        z: c2z,
    };
    let start = Point3D {
        x: sx,
        y: sy,
        z: sz,
    };
    hand_cause(
        bezier::bezier::linearize_bezier_from_params(end, c1, c2, start, resolution, out),
        count,
    )
}

// A curve in the plane as the ends of flat parts.
#[unsafe(no_mangle)]
pub extern "C" fn pz_linearize_bezier_adaptive(
    p0x: f64,
    p0y: f64,
    c1x: f64,
    c1y: f64,
    c2x: f64,
    c2y: f64,
    p1x: f64,
    p1y: f64,
    tolerance_sq: f64,
    max_depth: usize,
    out: &mut [f64],
    count: &mut usize,
) -> u32
    ensures { Listed (flat pair) (adaptive_call (plane_point p0x p0y) (plane_point c1x c1y) (plane_point c2x c2y) (plane_point p1x p1y) tolerance_sq max_depth (length out.old)) out.old out.new count.old count.new result }
{
    let p0 = Point { x: p0x, y: p0y };
    let c1 = Point { x: c1x, y: c1y };
    let c2 = Point { x: c2x, y: c2y };
    let p1 = Point { x: p1x, y: p1y };
    hand_cause(
        subdivision::subdivision::linearize_bezier_adaptive(
            p0,
            c1,
            c2,
            p1,
            tolerance_sq,
            max_depth,
            out,
        ),
        count,
    )
}

// The given tolerance, or the source's own. `replay` has the same of a record's number.
#[tactic(auto, unfolding(crate::specs::Plain::tolerance_by))]
fn tolerance_by(given: bool, t: f64) -> Option<f64>
    ensures { result ≡ tolerance_by given t }
{
    if given { Some(t) } else { None }
}

// A curve in space as the ends of flat parts.
#[unsafe(no_mangle)]
pub extern "C" fn pz_linearize_bezier_segment(
    p0x: f64,
    p0y: f64,
    p0z: f64,
    c1x: f64,
    c1y: f64,
    c1z: f64,
    c2x: f64,
    c2y: f64,
    c2z: f64,
    p1x: f64,
    p1y: f64,
    p1z: f64,
    given: bool,
    tolerance: f64,
    out: &mut [f64],
    count: &mut usize,
) -> u32
    ensures { Listed (flat triple) (segment_call (point3 p0x p0y p0z) (point3 c1x c1y c1z) (point3 c2x c2y c2z) (point3 p1x p1y p1z) (tolerance_by given tolerance) (length out.old)) out.old out.new count.old count.new result }
{
    let p0 = Point3D {
        x: p0x,
        y: p0y,
        z: p0z,
    };
    let c1 = Point3D {
        x: c1x,
        y: c1y,
        z: c1z,
    };
    let c2 = Point3D {
        x: c2x,
        y: c2y,
        z: c2z,
    };
    let p1 = Point3D {
        x: p1x,
        y: p1y,
        z: p1z,
    };
    let t = tolerance_by(given, tolerance);
    hand_cause(
        subdivision::subdivision::linearize_bezier_segment(p0, c1, c2, p1, t, out),
        count,
    )
}

// The curve fitted to points in the plane, if there is one.
#[unsafe(no_mangle)]
pub extern "C" fn pz_fit_cubic_bezier(
    points: &[f64],
    found: &mut bool,
    answer: &mut [f64; 8],
) -> u32
    ensures found { Told is_found (cubic_call points.now) found.old found.new result }
    ensures answer { Gave curve_numbers (cubic_call points.now) answer.old answer.new result }
{
    match fit_cubic::fit_cubic::fit_cubic_bezier(points) {
        Ok(Some(q)) => {
            put_curve(answer, 0, q);
            *found = true;
            0
        }
        Ok(None) => {
            *found = false;
            0
        }
        Err(cause) => u32::from(cause),
    }
}
