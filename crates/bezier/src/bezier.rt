// src/geo/shape/bezier.rs, first part: a curve's point, its parts, and its steps. The other parts are the crates
// `subdivision` and `fit_cubic`. The public calls take their points one by one, as C hands them over; inside, a curve is one
// value.
ghost use Rattle.std.specs.Prelude.{◌≡◌, ◌+◌, ◌*◌, ◌<◌, ◌≤◌, true, ◌++◌, Bool, length, pos};
ghost use Rattle.std.specs.Float.{fin};
ghost use Rattle.std.specs.Float.Ieee.{lt, le, to_unsigned};
ghost use Rattle.std.proofs.lemmas.List.Edits.{sets};
ghost use Rattle.geo.specs.Domain.{point_in, point3_in};
ghost use Rattle.geo.specs.Lent.{triple, flat};
ghost use Rattle.geo.specs.Outcome.{refusal};
ghost use Rattle.geo.specs.Refusal.{outcome, refused_by};
ghost use Rattle.geo.specs.Wrote.{Wrote};
ghost use Rattle.bezier.specs.Curve.{all_in, parts_at};
ghost use Rattle.bezier.specs.Linearize.{most_asked, six, step_end, steps_of, step_parameters, raised, step_count};
ghost use Rattle.bezier.specs.Calls.{point_call, split_call, most_steps, linearize_rows, linearize_call, param_first_rows, param_call};

use crate::evaluation::{Evaluated, Walk, point_on_plane};
use floats::float::{ceil, max};
use geo::domain::{is_parameter, is_tolerance, point_in, point3_in};
use geo::lent::put_point;
use geo::point::{get_distance_3d, interpolate};
use geo::refusal::Refusal;
use geo::types::{CubicBezier, MOST_ASKED, MOST_STEPS, Point, Point3D};

// What a curve's points are: positions in the plane, or in space.
pub trait Position: Copy {
    ghost inside: { Self → Bool };

    // Whether it is in the domain.
    fn is_in(self) -> bool
        ensures { result ≡ inside self };
}

impl Position for Point {
    ghost inside = { point_in };

    fn is_in(self) -> bool {
        point_in(self)
    }
}

impl Position for Point3D {
    ghost inside = { point3_in };

    fn is_in(self) -> bool {
        point3_in(self)
    }
}

// Whether all four points are in the domain. It serves `subdivision` too.
pub fn curve_in<P: Position>(q: CubicBezier<P>) -> bool
    ensures { result ≡ all_in P.inside q }
{
    q.0.is_in() && q.1.is_in() && q.2.is_in() && q.3.is_in()
}

// Evaluates a cubic Bezier curve at parameter t, 0 to 1, using the Bernstein polynomial. `split_bezier` has the same shape, and
// subdivision's test: they answer three different types, and one function over what is answered would be no shorter.
#[tactic(auto, unfolding(crate::specs::Calls::point_call))]
pub fn get_bezier_point_at(
    p0: Point,
    c1: Point,
    c2: Point,
    p1: Point,
    t: f64,
) -> Result<Point, Refusal>
    ensures { outcome result ≡ point_call p0 c1 c2 p1 t }
{
    let q = CubicBezier(p0, c1, c2, p1);
    if !(curve_in(q) && is_parameter(t)) {
        return Err(Refusal::BadNumber);
    }
    Ok(point_on_plane(q, t))
}

// The two parts of a curve, which meet at a parameter.
#[derive(Clone, Copy)]
pub struct Halves<P> {
    pub left: CubicBezier<P>,
    pub right: CubicBezier<P>,
}

impl Halves<Point> {
    // The parts of q that meet at t, by de Casteljau's rule. It serves `subdivision` too.
    #[tactic(auto, unfolding(crate::specs::Curve::meeting, crate::specs::Curve::left_part, crate::specs::Curve::right_part))]
    pub fn of(q: CubicBezier<Point>, t: f64) -> Self
        ensures { result ≡ parts_at q t }
    {
        let mid_p0_c1 = interpolate(q.0, q.1, t);
        let mid_c1_c2 = interpolate(q.1, q.2, t);
        let mid_c2_p1 = interpolate(q.2, q.3, t);
        let mid_p0c1_c1c2 = interpolate(mid_p0_c1, mid_c1_c2, t);
        let mid_c1c2_c2p1 = interpolate(mid_c1_c2, mid_c2_p1, t);
        let split_point = interpolate(mid_p0c1_c1c2, mid_c1c2_c2p1, t);
        Self {
            left: CubicBezier(q.0, mid_p0_c1, mid_p0c1_c1c2, split_point),
            right: CubicBezier(split_point, mid_c1c2_c2p1, mid_c2_p1, q.3),
        }
    }
}

// Splits a Bezier curve into two sub-curves at parameter t.
#[tactic(auto, unfolding(crate::specs::Calls::split_call))]
pub fn split_bezier(
    p0: Point,
    c1: Point,
    c2: Point,
    p1: Point,
    t: f64,
) -> Result<Halves<Point>, Refusal>
    ensures { outcome result ≡ split_call p0 c1 c2 p1 t }
{
    let q = CubicBezier(p0, c1, c2, p1);
    if !(curve_in(q) && is_parameter(t)) {
        return Err(Refusal::BadNumber);
    }
    Ok(Halves::of(q, t))
}

impl Walk {
    // Writes the steps and answers how often the curve was evaluated: the first start before the loop, then each step's end,
    // which is handed to the next step (document 02, §3): so a `for`, since a `fold` would carry the output too. The callers drop the count.
    fn put_steps(self, out: &mut [f64]) -> usize
        requires { 6 * self.steps ≤ length out.old }
        ensures written { out.new ≡ sets out.old 0 (flat six (steps_of self.curve self.steps)) }
        ensures evaluations { (result ≡ length (step_parameters self.steps)) × (result ≡ self.steps + 1) }
    {
        let mut from = Evaluated::at(self, 0, 0);
        for i in 0..self.steps {
            let to = from.end(self, i);
            put_step(out, 6 * i, from.point(), to.point());
            from = to;
        }
        from.count()
    }
}

// Writes one step from `at` on. The output and the place are two, here and in `put_ends`: a struct would be made for one write.
#[tactic(auto, using(geo::proofs::Stores::sets_append))]
fn put_step(out: &mut [f64], at: usize, from: Point3D, to: Point3D)
    requires { at + 5 < length out.old }
    ensures { out.new ≡ sets out.old at (triple from ++ triple to) }
{
    put_point(out, at, from);
    put_point(out, at + 3, to);
}

// The first row of the table that `linearize_bezier` falls under.
#[tactic(auto, unfolding(crate::specs::Calls::linearize_rows, geo::specs::Outcome::refusal, geo::specs::Domain::whole))]
fn check_linearize(q: CubicBezier<Point3D>, num_steps: usize, room: usize) -> Result<(), Refusal>
    ensures { refused_by result ≡ refusal (linearize_rows q.0 q.1 q.2 q.3 num_steps room) }
{
    if room % 6 != 0 {
        return Err(Refusal::NotWhole);
    }
    if num_steps == 0 || MOST_ASKED < num_steps {
        return Err(Refusal::TooMany);
    }
    if !curve_in(q) {
        return Err(Refusal::BadNumber);
    }
    if room < 6 * num_steps {
        return Err(Refusal::NoRoom);
    }
    Ok(())
}

// Converts a Bezier curve into line segments using uniform parameter steps.
pub fn linearize_bezier(
    p0: Point3D,
    c1: Point3D,
    c2: Point3D,
    p1: Point3D,
    num_steps: usize,
    out: &mut [f64],
) -> Result<usize, Refusal>
    ensures { Wrote (flat six) (linearize_call p0 c1 c2 p1 num_steps (length out.old)) out.old out.new result }
{
    let q = CubicBezier(p0, c1, c2, p1);
    check_linearize(q, num_steps, out.len())?;
    let walk = Walk {
        curve: q,
        steps: num_steps,
    };
    walk.put_steps(out);
    Ok(num_steps)
}

// The curve of a command's parameters, which are in the source's order, as C hands them over: a control lies at the height of the
// third between the ends that is next to it. It serves `chain` too.
#[tactic(auto, unfolding(crate::specs::Linearize::first_third, crate::specs::Linearize::last_third))]
pub fn raise_controls(
    end: Point3D,
    control1: Point3D,
    control2: Point3D,
    start_point: Point3D,
) -> CubicBezier<Point3D>
    ensures { result ≡ raised end control1 control2 start_point }
{
    let near = 2.0 / 3.0;
    let far = 1.0 / 3.0;
    let c1 = at_height(control1, start_point.z * near + end.z * far);
    let c2 = at_height(control2, start_point.z * far + end.z * near);
    CubicBezier(start_point, c1, c2, end)
}

fn at_height(p: Point3D, z: f64) -> Point3D
    ensures { result ≡ record { x = p.x; y = p.y; z = z } }
{
    Point3D { x: p.x, y: p.y, z }
}

// How many steps of the resolution the control polygon has, at least 2, as a float. It serves `chain` too.
#[tactic(auto, unfolding(crate::specs::Linearize::step_count, crate::specs::Linearize::polygon_length))]
pub fn steps_needed(q: CubicBezier<Point3D>, resolution: f64) -> f64
    ensures { result ≡ step_count q.0 q.1 q.2 q.3 resolution }
{
    let l01 = get_distance_3d(q.0, q.1);
    let l12 = get_distance_3d(q.1, q.2);
    let l23 = get_distance_3d(q.2, q.3);
    max(ceil((l01 + l12 + l23) / resolution), 2.0)
}

// Writes the ends of n steps of a curve as triples, from index `at` on. It serves `chain`, which has each step's start
// already: so it hands no end on, and is a loop of its own beside `put_steps`. That the count and the place are small is asked, as by a
// `Walk`: it is a bound of the callers' lists, and of no value here.
pub fn put_ends(q: CubicBezier<Point3D>, n: usize, out: &mut [f64], at: usize)
    requires { (n ≤ most_asked) × (at ≤ most_asked) × (3 * (at + n) ≤ length out.old) }
    ensures { out.new ≡ sets out.old (3 * at) (flat step_end (steps_of q n)) }
{
    let walk = Walk { curve: q, steps: n };
    for i in 0..n {
        let to = Evaluated::at(walk, i + 1, i);
        put_point(out, 3 * (at + i), to.point());
    }
}

// A count of steps, from its float. It serves `chain` too.
#[tactic(auto, using(crate::proofs::Count::steps_small))]
pub fn whole_steps(needed: f64) -> usize
    requires above_minus_one { lt (fin true 1 (pos 0)) needed ≡ true }
    requires at_most_all { le needed most_steps ≡ true }
    ensures { (result ≡ to_unsigned 64 needed) × (result ≤ 800) }
{
    std::num::truncating_f64_to_u64(needed) as usize
}

// The checks of `linearize_bezier_from_params` before its steps are counted; `given` has its four points in their order. It and
// `check_linearize` are two, since they follow two tables.
#[tactic(auto, unfolding(crate::specs::Calls::param_first_rows, geo::specs::Outcome::refusal, geo::specs::Domain::whole))]
fn check_params(given: CubicBezier<Point3D>, resolution: f64, room: usize) -> Result<(), Refusal>
    ensures { refused_by result ≡ refusal (param_first_rows given.0 given.1 given.2 given.3 resolution room) }
{
    if room % 6 != 0 {
        return Err(Refusal::NotWhole);
    }
    if !curve_in(given) {
        return Err(Refusal::BadNumber);
    }
    if !is_tolerance(resolution) {
        return Err(Refusal::BadTolerance);
    }
    Ok(())
}

// Converts a Bezier curve from parameters into line segments; the number of steps comes from the control polygon.
pub fn linearize_bezier_from_params(
    end: Point3D,
    control1: Point3D,
    control2: Point3D,
    start_point: Point3D,
    resolution: f64,
    out: &mut [f64],
) -> Result<usize, Refusal>
    ensures { Wrote (flat six) (param_call end control1 control2 start_point resolution (length out.old)) out.old out.new result }
{
    let given = CubicBezier(end, control1, control2, start_point);
    check_params(given, resolution, out.len())?;
    let q = raise_controls(end, control1, control2, start_point);
    let needed = steps_needed(q, resolution);
    if needed <= MOST_STEPS {
        let n = whole_steps(needed);
        if out.len() < 6 * n {
            return Err(Refusal::NoRoom);
        }
        let walk = Walk { curve: q, steps: n };
        walk.put_steps(out);
        return Ok(n);
    }
    Err(Refusal::TooMuch)
}
