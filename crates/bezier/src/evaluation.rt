// A curve's point at a parameter. No other file works one out; so, of a curve in space, the count in `Evaluated` says how
// often that was done (document 02, §3).
ghost use Rattle.std.specs.Prelude.{◌≡◌, ◌+◌, ◌<◌, ◌≤◌};
ghost use Rattle.geo.specs.declared.types.CubicBezier.{CubicBezier};
ghost use Rattle.bezier.specs.declared.evaluation.Weights.{Weights};
ghost use Rattle.bezier.specs.Curve.{weights_at, mixed, weighed, weighed3, point_on, point_of};
ghost use Rattle.bezier.specs.Linearize.{most_asked, share};

use geo::domain::{point_in, point3_in};
use geo::types::{CubicBezier, Point, Point3D};

// Bernstein's weights at a parameter.
#[derive(Clone, Copy)]
pub struct Weights {
    pub w0: f64,
    pub w1: f64,
    pub w2: f64,
    pub w3: f64,
}

impl Weights {
    #[tactic(auto, unfolding(crate::specs::Curve::weights_at))]
    fn at(t: f64) -> Self
        ensures { result ≡ weights_at t }
    {
        let s = 1.0 - t;
        Self {
            w0: s * (s * s),
            w1: 3.0 * (s * s) * t,
            w2: 3.0 * s * (t * t),
            w3: t * (t * t),
        }
    }

    // One coordinate of the point with these weights.
    #[tactic(auto, unfolding(crate::specs::Curve::mixed))]
    fn mix(self, p0: f64, c1: f64, c2: f64, p1: f64) -> f64
        ensures { result ≡ mixed self p0 c1 c2 p1 }
    {
        self.w0 * p0 + self.w1 * c1 + self.w2 * c2 + self.w3 * p1
    }
}

// What is summed by weights: positions in the plane, or in space. The check does not hand a method over `CubicBezier<Self>` its
// trait's clause, so each has it again.
trait Weighed: Copy {
    ghost weighed: { Weights → CubicBezier Self → Self };

    // The sum of a curve's four points, each by its weight.
    fn weigh(w: Weights, q: CubicBezier<Self>) -> Self
        ensures { result ≡ weighed w q };
}

impl Weighed for Point {
    ghost weighed = { weighed };

    fn weigh(w: Weights, q: CubicBezier<Point>) -> Point
        ensures { result ≡ weighed w q }
    {
        Point {
            x: w.mix(q.0.x, q.1.x, q.2.x, q.3.x),
            y: w.mix(q.0.y, q.1.y, q.2.y, q.3.y),
        }
    }
}

impl Weighed for Point3D {
    ghost weighed = { weighed3 };

    fn weigh(w: Weights, q: CubicBezier<Point3D>) -> Point3D
        ensures { result ≡ weighed3 w q }
    {
        Point3D {
            x: w.mix(q.0.x, q.1.x, q.2.x, q.3.x),
            y: w.mix(q.0.y, q.1.y, q.2.y, q.3.y),
            z: w.mix(q.0.z, q.1.z, q.2.z, q.3.z),
        }
    }
}

// The point at t. It is private: no other file evaluates a curve in space but through `Evaluated`.
fn point_on<P: Weighed>(q: CubicBezier<P>, t: f64) -> P
    ensures { result ≡ P.weighed (weights_at t) q }
{
    P::weigh(Weights::at(t), q)
}

// The point at t of a curve in the plane.
#[tactic(auto, unfolding(crate::specs::Curve::point_on))]
pub(crate) fn point_on_plane(q: CubicBezier<Point>, t: f64) -> Point
    ensures { result ≡ point_on q t }
{
    point_on(q, t)
}

// A curve in space that is walked in equal steps of its parameter.
#[derive(Clone, Copy)]
pub(crate) struct Walk {
    pub(crate) curve: CubicBezier<Point3D>,
    pub(crate) steps: usize,
    ghost few: { steps ≤ most_asked },
}

impl Walk {
    // The share i of its steps. That i is small is asked here and below: a type for it would be made at each step.
    #[tactic(auto, unfolding(crate::specs::Linearize::share))]
    fn share(self, i: usize) -> f64
        requires { i ≤ most_asked }
        ensures { result ≡ share self.steps i }
    {
        i as f64 / self.steps as f64
    }
}

// A point of a curve in space, and how often the curve was evaluated up to it. The fields are private: `at` alone makes
// one, so a count is raised where the curve is evaluated and nowhere else.
#[derive(Clone, Copy)]
pub(crate) struct Evaluated {
    point: Point3D,
    count: usize,
}

impl Evaluated {
    // Evaluates the curve at the share i of its steps, after `before` evaluations.
    #[tactic(auto, unfolding(crate::specs::Curve::point_on3))]
    pub(crate) fn at(walk: Walk, i: usize, before: usize) -> Self
        requires { (i ≤ most_asked) × (before ≤ most_asked) }
        ensures point { result.point ≡ point_of walk.curve (share walk.steps i) }
        ensures count { result.count ≡ before + 1 }
    {
        Self {
            point: point_on(walk.curve, walk.share(i)),
            count: before + 1,
        }
    }

    pub(crate) fn point(self) -> Point3D
        ensures { result ≡ self.point }
    {
        self.point
    }

    pub(crate) fn count(self) -> usize
        ensures { result ≡ self.count }
    {
        self.count
    }

    // The end of step i, from its start.
    pub(crate) fn end(self, walk: Walk, i: usize) -> Self
        requires { (i < walk.steps) × (self.count ≤ most_asked) }
        ensures point { result.point ≡ point_of walk.curve (share walk.steps (i + 1)) }
        ensures count { result.count ≡ self.count + 1 }
    {
        Self::at(walk, i + 1, self.count)
    }
}
