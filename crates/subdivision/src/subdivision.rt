// src/geo/shape/bezier.rs, second part: whether a curve is flat, and a curve halved until each part is. The public calls take
// their points one by one, as C hands them over.
ghost use Rattle.std.specs.Prelude.{◌≡◌, ◌+◌, ◌*◌, ◌^◌, ◌≤◌, ◌∷◌, length};
ghost use Rattle.geo.specs.Lent.{pair, triple, flat};
ghost use Rattle.geo.specs.Outcome.{refusal, Placed};
ghost use Rattle.geo.specs.Refusal.{outcome, refused_by};
ghost use Rattle.geo.specs.Wrote.{Wrote};
ghost use Rattle.subdivision.specs.Flatten.{curve_chord, off_chord, is_flat, minus, norm_sq, perpendicular_sq, flatness_sq, parts};
ghost use Rattle.subdivision.specs.Calls.{flat_call, most_depth, adaptive_rows, adaptive_call, segment_rows, segment_call};

use crate::part::Part;
use bezier::bezier::curve_in;
use floats::float::max;
use geo::domain::{is_tolerance, is_tolerance_squared};
use geo::point::get_distance_squared;
use geo::refusal::Refusal;
use geo::types::{CubicBezier, MOST_DEPTH, Point, Point3D};

// A curve's chord, or none: where the ends meet there is no line to be off. farthest::Chord is of points in space, and degenerate
// below another limit.
#[derive(Clone, Copy)]
pub struct Chord {
    pub start: Point,
    pub vx: f64,
    pub vy: f64,
    // the chord squared
    pub norm: f64,
}

impl Chord {
    // A chord whose square is below this counts as a point.
    const DEGENERATE: f64 = 1e-9;

    #[tactic(auto, unfolding(crate::specs::Flatten::curve_chord))]
    fn new(p0: Point, p1: Point) -> Self
        ensures { result ≡ curve_chord p0 p1 }
    {
        let vx = p1.x - p0.x;
        let vy = p1.y - p0.y;
        Self {
            start: p0,
            vx,
            vy,
            norm: vx * vx + vy * vy,
        }
    }

    // The squared distance of c to the chord's endless line, or to its start where it is degenerate.
    #[tactic(auto, unfolding(crate::specs::Flatten::off_chord))]
    fn off(self, c: Point) -> f64
        ensures { result ≡ off_chord self c }
    {
        if self.norm < Chord::DEGENERATE {
            return get_distance_squared(c, self.start);
        }
        let cross = self.vx * (c.y - self.start.y) - self.vy * (c.x - self.start.x);
        cross * cross / self.norm
    }
}

// Whether both controls are at most the tolerance off the chord. Curve and tolerance are two, here and below: the limit is of the
// call, and stays while the curve is halved.
#[tactic(auto, unfolding(crate::specs::Flatten::is_flat))]
pub(crate) fn is_flat(q: CubicBezier<Point>, tolerance_sq: f64) -> bool
    ensures { result ≡ is_flat q tolerance_sq }
{
    let chord = Chord::new(q.0, q.3);
    chord.off(q.1) <= tolerance_sq && chord.off(q.2) <= tolerance_sq
}

// Tests whether a cubic Bezier curve is flat enough to approximate with a line segment. It has the shape of bezier's calls of four
// points; its rows and its answer are others, and one function over these would be told both.
#[tactic(auto, unfolding(crate::specs::Calls::flat_call))]
pub fn is_bezier_flat(
    p0: Point,
    c1: Point,
    c2: Point,
    p1: Point,
    tolerance_sq: f64,
) -> Result<bool, Refusal>
    ensures { outcome result ≡ flat_call p0 c1 c2 p1 tolerance_sq }
{
    let q = CubicBezier(p0, c1, c2, p1);
    if !curve_in(q) {
        return Err(Refusal::BadNumber);
    }
    if !is_tolerance_squared(tolerance_sq) {
        return Err(Refusal::BadTolerance);
    }
    Ok(is_flat(q, tolerance_sq))
}

// Writes the ends of the parts of a curve from place `at` on, the left half's first, and answers their number. `depth` is
// how often a part may still be halved; it, the curve and the place change with each half, the output is handed on, and so they stay
// parameters here and in `put_polyline`: a struct would be made anew for each half.
fn subdivide<P: Part>(
    depth: usize,
    tolerance_sq: f64,
    q: CubicBezier<P>,
    out: &mut [f64],
    at: usize,
) -> usize
    requires { (depth ≤ most_depth) × (P.width * (at + 2 ^ depth) ≤ length out.old) }
    ensures { Placed P.lay P.width (parts P.flat P.halved depth tolerance_sq q) at result out.old out.new }
{
    if depth == 0 || P::is_flat(q, tolerance_sq) {
        q.3.put(out, at);
        return 1;
    }
    let h = P::halve(q);
    let n = subdivide(depth - 1, tolerance_sq, h.left, out, at);
    let m = subdivide(depth - 1, tolerance_sq, h.right, out, at + n);
    n + m
}

// Writes a curve's start and the ends of its parts, and answers how many points these are.
fn put_polyline<P: Part>(
    depth: usize,
    tolerance_sq: f64,
    q: CubicBezier<P>,
    out: &mut [f64],
) -> usize
    requires { (depth ≤ most_depth) × (P.width * (1 + 2 ^ depth) ≤ length out.old) }
    ensures { Placed P.lay P.width (q.0 ∷ parts P.flat P.halved depth tolerance_sq q) 0 result out.old out.new }
{
    q.0.put(out, 0);
    let n = subdivide(depth, tolerance_sq, q, out, 1);
    1 + n
}

// The first row of the table that `linearize_bezier_adaptive` falls under. It and `check_segment` are two: they follow two
// tables, of other tolerances and tests in another order.
#[tactic(auto, unfolding(crate::specs::Calls::adaptive_rows, geo::specs::Outcome::refusal, geo::specs::Domain::whole))]
fn check_adaptive(
    q: CubicBezier<Point>,
    tolerance_sq: f64,
    max_depth: usize,
    room: usize,
) -> Result<(), Refusal>
    ensures { refused_by result ≡ refusal (adaptive_rows q tolerance_sq max_depth room) }
{
    if room % 2 != 0 {
        return Err(Refusal::NotWhole);
    }
    if MOST_DEPTH < max_depth {
        return Err(Refusal::TooMany);
    }
    if !curve_in(q) {
        return Err(Refusal::BadNumber);
    }
    if !is_tolerance_squared(tolerance_sq) {
        return Err(Refusal::BadTolerance);
    }
    if room < 2 * (1 + (1 << max_depth)) {
        return Err(Refusal::NoRoom);
    }
    Ok(())
}

// Converts a curve in the plane to a polyline: halved until each part is flat, at most max_depth times.
pub fn linearize_bezier_adaptive(
    p0: Point,
    c1: Point,
    c2: Point,
    p1: Point,
    tolerance_sq: f64,
    max_depth: usize,
    out: &mut [f64],
) -> Result<usize, Refusal>
    ensures { Wrote (flat pair) (adaptive_call p0 c1 c2 p1 tolerance_sq max_depth (length out.old)) out.old out.new result }
{
    let q = CubicBezier(p0, c1, c2, p1);
    check_adaptive(q, tolerance_sq, max_depth, out.len())?;
    Ok(put_polyline(max_depth, tolerance_sq, q, out))
}

// A direction in space, from one operand to the other. This and the two below have their like in `segment` and `circle`: those are told
// over the axes that count, and for arcs, and a curve's part would stand on both crates for three formulas of a line.
#[tactic(auto, unfolding(crate::specs::Flatten::minus))]
fn minus_3d(p: Point3D, q: Point3D) -> Point3D
    ensures { result ≡ minus p q }
{
    Point3D {
        x: p.x - q.x,
        y: p.y - q.y,
        z: p.z - q.z,
    }
}

#[tactic(auto, unfolding(crate::specs::Flatten::norm_sq))]
fn norm_squared(p: Point3D) -> f64
    ensures { result ≡ norm_sq p }
{
    p.x * p.x + p.y * p.y + p.z * p.z
}

// The squared distance of pt to the endless line from origin along v, whose square is norm_sq.
#[tactic(auto, unfolding(crate::specs::Flatten::perpendicular_sq, geo::specs::Vector::cross3))]
fn get_perpendicular_dist_sq(pt: Point3D, origin: Point3D, v: Point3D, norm_sq: f64) -> f64
    ensures { result ≡ perpendicular_sq pt origin v norm_sq }
{
    let p = minus_3d(pt, origin);
    let cross = Point3D {
        x: p.y * v.z - v.y * p.z,
        y: p.z * v.x - v.z * p.x,
        z: p.x * v.y - v.x * p.y,
    };
    norm_squared(cross) / norm_sq
}

// The greater of the controls' squared distances to the chord, or to the start where there is none.
#[tactic(auto, unfolding(crate::specs::Flatten::flatness_sq))]
pub(crate) fn get_bezier_flatness_sq(q: CubicBezier<Point3D>) -> f64
    ensures { result ≡ flatness_sq q.0 q.1 q.2 q.3 }
{
    let v = minus_3d(q.3, q.0);
    let norm_sq = norm_squared(v);
    if norm_sq < Chord::DEGENERATE {
        return max(
            norm_squared(minus_3d(q.1, q.0)),
            norm_squared(minus_3d(q.2, q.0)),
        );
    }
    let dist_b = get_perpendicular_dist_sq(q.1, q.0, v, norm_sq);
    let dist_c = get_perpendicular_dist_sq(q.2, q.0, v, norm_sq);
    max(dist_b, dist_c)
}

// What `linearize_bezier_segment` could write: 1 + 2^depth points of three numbers.
const SEGMENT_ROOM: usize = 3 * (1 + (1 << MOST_DEPTH));

// The first row of the table that `linearize_bezier_segment` falls under.
#[tactic(auto, unfolding(crate::specs::Calls::segment_rows, geo::specs::Outcome::refusal, geo::specs::Domain::whole))]
fn check_segment(q: CubicBezier<Point3D>, t: f64, room: usize) -> Result<(), Refusal>
    ensures { refused_by result ≡ refusal (segment_rows q.0 q.1 q.2 q.3 t room) }
{
    if room % 3 != 0 {
        return Err(Refusal::NotWhole);
    }
    if !curve_in(q) {
        return Err(Refusal::BadNumber);
    }
    if !is_tolerance(t) {
        return Err(Refusal::BadTolerance);
    }
    if room < SEGMENT_ROOM {
        return Err(Refusal::NoRoom);
    }
    Ok(())
}

// The source's own tolerance, where none is given.
const TOLERANCE: f64 = 0.01;

// Converts a 3D Bezier curve to a polyline using adaptive subdivision.
pub fn linearize_bezier_segment(
    p0: Point3D,
    c1: Point3D,
    c2: Point3D,
    p1: Point3D,
    tolerance: Option<f64>,
    out: &mut [f64],
) -> Result<usize, Refusal>
    ensures { Wrote (flat triple) (segment_call p0 c1 c2 p1 tolerance (length out.old)) out.old out.new result }
{
    let q = CubicBezier(p0, c1, c2, p1);
    let t = tolerance.unwrap_or(TOLERANCE);
    check_segment(q, t, out.len())?;
    Ok(put_polyline(MOST_DEPTH, t * t, q, out))
}
