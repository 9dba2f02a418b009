// src/geo/algo/fitting.rs: collinearity, both circle fits and the bisector projection.
ghost use Rattle.std.specs.Prelude.{◌≡◌, ◌<◌, ◌≤◌};
ghost use Rattle.geo.specs.Domain.{most_points};
ghost use Rattle.geo.specs.Vector.{cross3, dot3};
ghost use Rattle.geo.specs.Lent.{point_at};
ghost use Rattle.geo.specs.Outcome.{refusal};
ghost use Rattle.geo.specs.Refusal.{outcome, refused_by};
ghost use Rattle.circle.specs.Worst.{worse};
ghost use Rattle.circle.specs.Collinear.{ends_chord, near_to, beside_of, collinear};
ghost use Rattle.circle.specs.Three.{area_of, turn_of, center3, radius_from, center_three, through_three};
ghost use Rattle.circle.specs.Kasa.{no_sums, plus, sums_of, matrix_of, sides_of, scaled, det_of, solved, kasa_center, error_of, worst_error, kasa_circle};
ghost use Rattle.circle.specs.Bisector.{projected};
ghost use Rattle.circle.specs.Calls.{points_rows, collinear_call, through_call, fitted_call, projected_call};

use floats::float::abs;
use floats::root::sqrt;
use geo::domain::{MOST_POINTS, all_coordinates, is_centre, is_tolerance, point3_in};
use geo::lists::Stretch;
use geo::point::get_length;
use geo::refusal::Refusal;
use geo::types::{Point, Point3D};

// The greatest of some distances, and the index at which it first stands. farthest::Farthest is of squared distances, which are
// compared with a squared limit: a type for both would not tell which of the two a number is.
#[derive(Clone, Copy)]
pub struct Deviation {
    pub dist: f64,
    pub index: usize,
}

impl Deviation {
    // A later distance that is equal does not replace the earlier one. No logical operator: of two points it takes one.
    #[tactic(auto, unfolding(crate::specs::Worst::worse))]
    pub fn or(self, dist: f64, index: usize) -> Self
        ensures { result ≡ worse dist index self }
    {
        if dist > self.dist {
            return Self { dist, index };
        }
        self
    }
}

// The chord between two points: its first point, its direction and its length in the plane. farthest::Chord has the square of the
// length in its place, and no root: one type would work out both.
#[derive(Clone, Copy)]
pub struct Chord {
    pub a: Point3D,
    pub dx: f64,
    pub dy: f64,
    pub len: f64,
}

impl Chord {
    // A chord shorter than this has no line.
    const SHORT: f64 = 1e-9;

    // A chord whose square is below this has no bisector.
    const DEGENERATE: f64 = 1e-12;

    // A chord is itself the value of its two ends, and so takes them as two.
    #[tactic(auto, unfolding(crate::specs::Collinear::ends_chord))]
    fn new(a: Point3D, b: Point3D) -> Self
        ensures { result ≡ ends_chord a b }
    {
        let dx = b.x - a.x;
        let dy = b.y - a.y;
        Self {
            a,
            dx,
            dy,
            len: get_length(dx, dy),
        }
    }

    // Whether p lies nearer than the tolerance to the chord's first point.
    #[tactic(auto, unfolding(crate::specs::Collinear::near_to))]
    fn near(self, p: Point3D, tolerance: f64) -> bool
        ensures { result ≡ near_to self tolerance p }
    {
        get_length(p.x - self.a.x, p.y - self.a.y) < tolerance
    }

    // Whether p lies no farther than the tolerance from the endless line.
    #[tactic(auto, unfolding(crate::specs::Collinear::beside_of))]
    fn beside(self, p: Point3D, tolerance: f64) -> bool
        ensures { result ≡ beside_of self tolerance p }
    {
        let vx = p.x - self.a.x;
        let vy = p.y - self.a.y;
        let d = abs(vx * self.dy - vy * self.dx) / self.len;
        !(d > tolerance)
    }
}

// Whether the points lie on a straight line within the tolerance.
#[tactic(auto, unfolding(crate::specs::Collinear::collinear, crate::specs::Collinear::collinear_by))]
fn is_collinear(stretch: Stretch, tolerance: f64) -> bool
    ensures { result ≡ collinear tolerance (point_at stretch.entry.points.now) stretch.entry.start stretch.entry.end }
{
    if stretch.end < stretch.start + 2 {
        return true;
    }
    let c = Chord::new(stretch.first(), stretch.last());
    if c.len < Chord::SHORT {
        return (stretch.start..stretch.end + 1).all(|i| c.near(stretch.at(i), tolerance));
    }
    (stretch.start + 1..stretch.end).all(|i| c.beside(stretch.at(i), tolerance))
}

// The distance of p from a centre.
#[tactic(auto, unfolding(crate::specs::Three::radius_from))]
fn get_radius(center: Point, p: Point3D) -> f64
    ensures { result ≡ radius_from center p }
{
    get_length(p.x - center.x, p.y - center.y)
}

// Twice the signed area of a triangle. Its corners are three parameters, here and below: of a struct each coordinate in these formulas
// would be read by one name more.
#[tactic(auto, unfolding(crate::specs::Three::area_of))]
fn area(a: Point3D, b: Point3D, c: Point3D) -> f64
    ensures { result ≡ area_of a b c }
{
    a.x * (b.y - c.y) + b.x * (c.y - a.y) + c.x * (a.y - b.y)
}

// −2 times the cross product of the two steps.
#[tactic(auto, unfolding(crate::specs::Three::turn_of))]
fn turn(a: Point3D, b: Point3D, c: Point3D) -> f64
    ensures { result ≡ turn_of a b c }
{
    -2.0 * ((b.x - a.x) * (c.y - b.y) - (b.y - a.y) * (c.x - b.x))
}

// The centre, where d is the three points' turn.
#[tactic(auto, unfolding(crate::specs::Three::center3))]
fn center_of(a: Point3D, b: Point3D, c: Point3D, d: f64) -> Point
    ensures { result ≡ center3 a b c d }
{
    let sq1 = a.x * a.x + a.y * a.y;
    let sq2 = b.x * b.x + b.y * b.y;
    let sq3 = c.x * c.x + c.y * c.y;
    Point {
        x: ((sq1 - sq2) * (c.y - b.y) - (sq2 - sq3) * (b.y - a.y)) / d,
        y: ((b.x - a.x) * (sq2 - sq3) - (c.x - b.x) * (sq1 - sq2)) / d,
    }
}

// The centre of the circle through three points, or none, by the perpendicular bisector method.
#[tactic(auto, unfolding(crate::specs::Three::center_three, crate::specs::Three::center_by))]
pub fn center_through(a: Point3D, b: Point3D, c: Point3D) -> Option<Point>
    ensures { result ≡ center_three a b c }
{
    if abs(area(a, b, c)) < Circle::FLAT {
        return None;
    }
    let d = turn(a, b, c);
    if abs(d) < Circle::FLAT {
        return None;
    }
    Some(center_of(a, b, c, d))
}

// A circle, or an arc of one.
#[derive(Clone, Copy)]
pub struct Circle {
    pub center: Point,
    pub radius: f64,
}

impl Circle {
    // Three points whose area or whose turn is below this have no circle.
    const FLAT: f64 = 1e-9;

    // Through three points, or none. Its radius is measured to the first.
    #[tactic(auto, unfolding(crate::specs::Three::through_three, crate::specs::Three::circle_round))]
    fn through(a: Point3D, b: Point3D, c: Point3D) -> Option<Self>
        ensures { result ≡ through_three a b c }
    {
        let center = center_through(a, b, c)?;
        Some(Self {
            center,
            radius: get_radius(center, a),
        })
    }

    // How far a point is off the circle.
    #[tactic(auto, unfolding(crate::specs::Kasa::error_of))]
    fn error_of(self, p: Point3D) -> f64
        ensures { result ≡ error_of self.center self.radius p }
    {
        abs(get_radius(self.center, p) - self.radius)
    }

    // The greatest of these. A `for`: the index goes along, of equal errors the first counts, and the closure of a `fold` would need a
    // contract that says `or` again.
    #[tactic(auto, unfolding(crate::specs::Kasa::worst_error, crate::specs::Worst::worst))]
    fn worst_error(self, stretch: Stretch) -> Deviation
        ensures { result ≡ worst_error self.center self.radius (point_at stretch.entry.points.now) stretch.entry.start stretch.entry.end }
    {
        let mut worst = Deviation {
            dist: 0.0,
            index: stretch.start,
        };
        for i in stretch.start..stretch.end + 1 {
            worst = worst.or(self.error_of(stretch.at(i)), i);
        }
        worst
    }
}

// The sums of Kasa's normal equations.
#[derive(Clone, Copy, Default)]
pub struct Sums {
    pub xx: f64,
    pub xy: f64,
    pub x: f64,
    pub yy: f64,
    pub y: f64,
    pub xb: f64,
    pub yb: f64,
    pub b: f64,
}

impl Sums {
    // One point more. Only this order of operations gives the Rust's bits.
    #[tactic(auto, unfolding(crate::specs::Kasa::plus))]
    fn add(self, p: Point3D) -> Self
        ensures { result ≡ plus p self }
    {
        let x = p.x;
        let y = p.y;
        let x2y2 = x * x + y * y;
        Self {
            xx: self.xx + 2.0 * x * 2.0 * x,
            xy: self.xy + 2.0 * x * 2.0 * y,
            x: self.x + 2.0 * x,
            yy: self.yy + 2.0 * y * 2.0 * y,
            y: self.y + 2.0 * y,
            xb: self.xb + 2.0 * x * x2y2,
            yb: self.yb + 2.0 * y * x2y2,
            b: self.b + x2y2,
        }
    }

    // Of the points of a stretch. A `for`: each sum is rounded after each point, from the first on, and the closure of a `fold` would need
    // a contract that says `add` again.
    fn of(stretch: Stretch) -> Self
        ensures { result ≡ sums_of (point_at stretch.entry.points.now) stretch.entry.start stretch.entry.end }
    {
        let mut s = Sums::default();
        for i in stretch.start..stretch.end + 1 {
            s = s.add(stretch.at(i));
        }
        s
    }

    // The matrix of the equations, of n points.
    #[tactic(auto, unfolding(crate::specs::Kasa::matrix_of))]
    fn rows(self, n: usize) -> Axes
        requires { n ≤ most_points }
        ensures { result ≡ matrix_of self n }
    {
        Axes {
            x: Point3D {
                x: self.xx,
                y: self.xy,
                z: self.x,
            },
            y: Point3D {
                x: self.xy,
                y: self.yy,
                z: self.y,
            },
            z: Point3D {
                x: self.x,
                y: self.y,
                z: n as f64,
            },
        }
    }

    // Their right sides.
    #[tactic(auto, unfolding(crate::specs::Kasa::sides_of))]
    fn sides(self) -> Point3D
        ensures { result ≡ sides_of self }
    {
        Point3D {
            x: self.xb,
            y: self.yb,
            z: self.b,
        }
    }
}

#[tactic(auto, unfolding(geo::specs::Vector::cross3))]
fn cross(u: Point3D, v: Point3D) -> Point3D
    ensures { result ≡ cross3 u v }
{
    Point3D {
        x: u.y * v.z - v.y * u.z,
        y: u.z * v.x - v.z * u.x,
        z: u.x * v.y - v.x * u.y,
    }
}

#[tactic(auto, unfolding(geo::specs::Vector::dot3))]
fn dot(u: Point3D, v: Point3D) -> f64
    ensures { result ≡ dot3 u v }
{
    u.x * v.x + u.y * v.y + u.z * v.z
}

#[tactic(auto, unfolding(crate::specs::Kasa::scaled))]
fn scale(u: Point3D, k: f64) -> Point3D
    ensures { result ≡ scaled u k }
{
    Point3D {
        x: u.x * k,
        y: u.y * k,
        z: u.z * k,
    }
}

// The rows of a matrix, as vectors: the products below are of vectors with names for their parts, and [[f64; 3]; 3] would be
// copied to them, or give them indices. It is symmetric, so a row is a column too.
#[derive(Clone, Copy)]
pub struct Axes {
    pub x: Point3D,
    pub y: Point3D,
    pub z: Point3D,
}

impl Axes {
    // A matrix whose determinant is below this has no inverse.
    const SINGULAR: f64 = 1e-15;

    #[tactic(auto, unfolding(crate::specs::Kasa::det_of))]
    fn determinant(self) -> f64
        ensures { result ≡ det_of self }
    {
        dot(self.z, cross(self.x, self.y))
    }

    // The solution of three linear equations, or none: the inverse, cross products times 1 / determinant, times b.
    #[tactic(auto, unfolding(crate::specs::Kasa::solved, crate::specs::Kasa::inverse_times))]
    fn solve(self, b: Point3D) -> Option<Point3D>
        ensures { result ≡ solved self b }
    {
        let det = self.determinant();
        if abs(det) < Axes::SINGULAR {
            return None;
        }
        let k = 1.0 / det;
        let u = scale(cross(self.y, self.z), k);
        let v = scale(cross(self.z, self.x), k);
        let w = scale(cross(self.x, self.y), k);
        Some(Point3D {
            x: dot(u, b),
            y: dot(v, b),
            z: dot(w, b),
        })
    }
}

// The centre of the circle of least squares, and its radius squared.
#[derive(Clone, Copy)]
pub struct Center {
    pub center: Point,
    pub square: f64,
}

impl Center {
    // Points that lie on a line within this have no circle, whatever the tolerance of the fit.
    const COLLINEAR: f64 = 0.01;

    // A squared radius below this is none.
    const LEAST_SQUARE: f64 = 1e-10;

    // By Kasa's normal equations; or none. How many points there are has to be a float, so this is asked of each caller, up to the
    // fits of `pieces` and `ranges`: a type for it would be a second `Stretch` with the same methods, and trial::Trials and
    // ranges::Fit, which have the fact as their own, would make one at each call.
    #[tactic(auto, unfolding(crate::specs::Kasa::kasa_center, crate::specs::Kasa::centered))]
    pub fn of(stretch: Stretch) -> Option<Self>
        requires { stretch.end < most_points }
        ensures { result ≡ kasa_center (point_at stretch.entry.points.now) stretch.entry.start stretch.entry.end }
    {
        if is_collinear(stretch, Center::COLLINEAR) {
            return None;
        }
        let s = Sums::of(stretch);
        let n = stretch.end - stretch.start + 1;
        let v = s.rows(n).solve(s.sides())?;
        let square = v.x * v.x + v.y * v.y + v.z;
        if square < Center::LEAST_SQUARE {
            return None;
        }
        Some(Self {
            center: Point { x: v.x, y: v.y },
            square,
        })
    }
}

// The circle of least squares and its greatest error: three fields, as its definition has them. `Center` has the
// square in place of the radius, since the trials need no root of it.
#[derive(Clone, Copy)]
pub struct LeastSquares {
    pub center: Point,
    pub radius: f64,
    pub error: f64,
}

impl LeastSquares {
    // Or none.
    #[tactic(auto, unfolding(crate::specs::Kasa::kasa_circle, crate::specs::Kasa::fitted_to))]
    fn of(stretch: Stretch) -> Option<Self>
        requires { stretch.end < most_points }
        ensures { result ≡ kasa_circle (point_at stretch.entry.points.now) stretch.entry.start stretch.entry.end }
    {
        let c = Center::of(stretch)?;
        let circle = Circle {
            center: c.center,
            radius: sqrt(c.square),
        };
        Some(Self {
            center: circle.center,
            radius: circle.radius,
            error: circle.worst_error(stretch).dist,
        })
    }
}

// The centre moved along the chord a b to its bisector.
#[tactic(auto, unfolding(crate::specs::Bisector::projected, crate::specs::Bisector::moved_by))]
pub fn to_bisector(a: Point3D, b: Point3D, center: Point) -> Point
    ensures { result ≡ projected a b center }
{
    let dx = b.x - a.x;
    let dy = b.y - a.y;
    let chord_len_sq = dx * dx + dy * dy;
    if chord_len_sq < Chord::DEGENERATE {
        return center;
    }
    let vx = center.x - (a.x + b.x) / 2.0;
    let vy = center.y - (a.y + b.y) / 2.0;
    let proj_factor = (vx * dx + vy * dy) / chord_len_sq;
    Point {
        x: center.x - dx * proj_factor,
        y: center.y - dy * proj_factor,
    }
}

// The first row of the table that a list of points falls under.
#[tactic(auto, unfolding(crate::specs::Calls::points_rows, geo::specs::Outcome::refusal, geo::specs::Domain::whole))]
pub fn check_points(points: &[f64]) -> Result<(), Refusal>
    ensures { refused_by result ≡ refusal (points_rows points.now) }
{
    if points.len() % 3 != 0 {
        return Err(Refusal::NotWhole);
    }
    if MOST_POINTS < points.len() / 3 {
        return Err(Refusal::TooMany);
    }
    if !all_coordinates(points) {
        return Err(Refusal::BadNumber);
    }
    Ok(())
}

// Tests whether a sequence of points lies on a straight line within the given tolerance. The two are C's, one by one.
pub fn are_points_collinear_3d(points: &[f64], tolerance: f64) -> Result<bool, Refusal>
    ensures { outcome result ≡ collinear_call points.now tolerance }
{
    check_points(points)?;
    if !is_tolerance(tolerance) {
        return Err(Refusal::BadTolerance);
    }
    let n = points.len() / 3;
    if n < 3 {
        return Ok(true);
    }
    let all = Stretch {
        points,
        start: 0,
        end: n - 1,
    };
    Ok(is_collinear(all, tolerance))
}

// Fits a circle through three points using the perpendicular bisector method.
#[tactic(auto, unfolding(crate::specs::Calls::through_call))]
pub fn fit_circle_to_3_points(
    p1: Point3D,
    p2: Point3D,
    p3: Point3D,
) -> Result<Option<Circle>, Refusal>
    ensures { outcome result ≡ through_call p1 p2 p3 }
{
    if !(point3_in(p1) && point3_in(p2) && point3_in(p3)) {
        return Err(Refusal::BadNumber);
    }
    Ok(Circle::through(p1, p2, p3))
}

// Fits a circle to a set of points using Kasa's least-squares method.
pub fn fit_circle_to_points_3d(points: &[f64]) -> Result<Option<LeastSquares>, Refusal>
    ensures { outcome result ≡ fitted_call points.now }
{
    check_points(points)?;
    let n = points.len() / 3;
    if n < 3 {
        return Ok(None);
    }
    let all = Stretch {
        points,
        start: 0,
        end: n - 1,
    };
    Ok(LeastSquares::of(all))
}

// Projects a circle center onto the perpendicular bisector of the chord from p1 to p2.
#[tactic(auto, unfolding(crate::specs::Calls::projected_call))]
pub fn project_circle_center_to_bisector(
    p1: Point3D,
    p2: Point3D,
    center: Point,
) -> Result<Point, Refusal>
    ensures { outcome result ≡ projected_call p1 p2 center }
{
    if !(point3_in(p1) && point3_in(p2) && is_centre(center.x) && is_centre(center.y)) {
        return Err(Refusal::BadNumber);
    }
    Ok(to_bisector(p1, p2, center))
}
