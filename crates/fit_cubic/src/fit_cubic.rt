// src/geo/shape/bezier.rs, last part: the curve fitted to points.
ghost use Rattle.std.specs.Prelude.{◌≡◌, ◌+◌, ◌*◌, ◌/◌, ◌<◌, ◌≤◌, length, get_or};
ghost use Rattle.std.specs.Float.{nan};
ghost use Rattle.floats.specs.Ops.{+0};
ghost use Rattle.geo.specs.Domain.{most_points};
ghost use Rattle.geo.specs.Lent.{pair_at};
ghost use Rattle.geo.specs.Refusal.{outcome};
ghost use Rattle.fit_cubic.specs.FitCubic.{Chords, add_point, cubic_sums, cubic_solved, cubic_fitted};
ghost use Rattle.fit_cubic.specs.Calls.{cubic_call};

use floats::float::abs;
use geo::domain::{MOST_POINTS, all_coordinates};
use geo::point::{get_distance, interpolate};
use geo::refusal::Refusal;
use geo::types::{CubicBezier, Point};

// Points in the plane, lent as pairs of numbers. farthest::Pairs is of any number, for a search; of these each has
// its place in an array of chords.
#[derive(Clone, Copy)]
struct Pairs<'a> {
    nums: &'a [f64],
    ghost few: { length nums.now / 2 ≤ most_points },
}

impl<'a> Pairs<'a> {
    fn len(self) -> usize
        ensures { result ≡ length self.entry.nums.now / 2 }
    {
        self.nums.len() / 2
    }

    fn at(self, i: usize) -> Point
        requires { i < length self.nums.now / 2 }
        ensures { result ≡ pair_at self.entry.nums.now i }
    {
        geo::lent::pair_at(self.nums, i)
    }
}

// The sums of the normal equations.
#[derive(Clone, Copy, Default)]
pub struct Sums {
    pub a11: f64,
    pub a12: f64,
    pub a22: f64,
    pub b1x: f64,
    pub b1y: f64,
    pub b2x: f64,
    pub b2y: f64,
}

impl Sums {
    // A polyline shorter than this gives no parameters.
    const NO_LENGTH: f64 = 1e-12;

    // A determinant below this gives no solution.
    const SINGULAR: f64 = 1e-18;

    // With what the point q at parameter t adds. The ends stay two parameters, here and in `solve`: a value of both would be
    // made and taken apart, and used nowhere else.
    #[tactic(auto, unfolding(crate::specs::FitCubic::add_point))]
    fn add(self, p0: Point, p3: Point, t: f64, q: Point) -> Self
        ensures { result ≡ add_point p0 p3 t q self }
    {
        let mt = 1.0 - t;
        let w1 = 3.0 * mt * mt * t;
        let w2 = 3.0 * mt * t * t;
        let rx = q.x - mt * (mt * mt) * p0.x - t * (t * t) * p3.x;
        let ry = q.y - mt * (mt * mt) * p0.y - t * (t * t) * p3.y;
        Self {
            a11: self.a11 + w1 * w1,
            a12: self.a12 + w1 * w2,
            a22: self.a22 + w2 * w2,
            b1x: self.b1x + w1 * rx,
            b1y: self.b1y + w1 * ry,
            b2x: self.b2x + w2 * rx,
            b2y: self.b2y + w2 * ry,
        }
    }

    // The curve whose controls solve the equations.
    #[tactic(auto, unfolding(crate::specs::FitCubic::cubic_solved))]
    fn solve(self, p0: Point, p3: Point) -> CubicBezier<Point>
        ensures { result ≡ cubic_solved p0 p3 self }
    {
        let det = self.a11 * self.a22 - self.a12 * self.a12;
        if abs(det) < Sums::SINGULAR {
            let third = interpolate(p0, p3, 1.0 / 3.0);
            let two_thirds = interpolate(p0, p3, 2.0 / 3.0);
            return CubicBezier(p0, third, two_thirds, p3);
        }
        let inv = 1.0 / det;
        let c1 = Point {
            x: (self.a22 * self.b1x - self.a12 * self.b2x) * inv,
            y: (self.a22 * self.b1y - self.a12 * self.b2y) * inv,
        };
        let c2 = Point {
            x: (self.a11 * self.b2x - self.a12 * self.b1x) * inv,
            y: (self.a11 * self.b2y - self.a12 * self.b1y) * inv,
        };
        CubicBezier(p0, c1, c2, p3)
    }
}

impl<'a> Pairs<'a> {
    // Fills in the length of the polyline up to each point. That there is one is asked, here and below: `curve` alone knows it, behind
    // its own test. A `for`: the sum is rounded after each point, and stored, which a `fold` could not without the array beside it.
    fn sum_chords(self, chords: &mut [f64])
        requires room { (1 ≤ length self.nums.now / 2) × (length self.nums.now / 2 ≤ length chords.old) }
        requires starts_at_zero { get_or chords.old 0 nan ≡ +0 }
        ensures { Chords (pair_at self.entry.nums.now) (length self.entry.nums.now / 2) chords.new }
    {
        let n = self.len();
        let mut last = 0.0;
        for i in 1..n {
            last = last + get_distance(self.at(i), self.at(i - 1));
            chords[i] = last;
        }
    }

    // The sums over the points, at parameters by chord length. A `for`: each sum is rounded after each point, and a `fold`'s closure
    // would need a contract that says `add` again.
    fn sum_up(self, chords: &[f64]) -> Sums
        requires room { (1 ≤ length self.nums.now / 2) × (length self.nums.now / 2 ≤ length chords.now) }
        requires filled { Chords (pair_at self.nums.now) (length self.nums.now / 2) chords.now }
        ensures { result ≡ cubic_sums (pair_at self.entry.nums.now) (length self.entry.nums.now / 2) }
    {
        let n = self.len();
        let p0 = self.at(0);
        let p3 = self.at(n - 1);
        let total = chords[n - 1];
        let mut s = Sums::default();
        for j in 0..n {
            let t = chords[j] / total;
            s = s.add(p0, p3, t, self.at(j));
        }
        s
    }

    // The curve of the points; none below 2.
    fn curve(self) -> Option<CubicBezier<Point>>
        ensures { result ≡ cubic_fitted (pair_at self.entry.nums.now) (length self.entry.nums.now / 2) }
    {
        let n = self.len();
        if n < 2 {
            return None;
        }
        let p0 = self.at(0);
        let p3 = self.at(n - 1);
        if n == 2 {
            return Some(CubicBezier(p0, p0, p3, p3));
        }
        // An array of the most points, since there is no heap.
        let mut chords = [0.0; MOST_POINTS];
        self.sum_chords(&mut chords);
        if chords[n - 1] < Sums::NO_LENGTH {
            return Some(CubicBezier(p0, p0, p3, p3));
        }
        let s = self.sum_up(&chords);
        Some(s.solve(p0, p3))
    }
}

// Fits a cubic Bezier curve to points in the plane by least squares. Its ends are the first and the last point.
#[tactic(auto, unfolding(crate::specs::Calls::cubic_call, crate::specs::Calls::cubic_rows, geo::specs::Outcome::refusal, geo::specs::Domain::whole))]
pub fn fit_cubic_bezier(points: &[f64]) -> Result<Option<CubicBezier<Point>>, Refusal>
    ensures { outcome result ≡ cubic_call points.now }
{
    if points.len() % 2 != 0 {
        return Err(Refusal::NotWhole);
    }
    let n = points.len() / 2;
    if MOST_POINTS < n {
        return Err(Refusal::TooMany);
    }
    if !all_coordinates(points) {
        return Err(Refusal::BadNumber);
    }
    let pairs = Pairs { nums: points };
    Ok(pairs.curve())
}
