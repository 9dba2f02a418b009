// Document 02, §6: one Arc command as Lines, for screens that draw no arcs. From the start vector on it takes exact
// quarter turns, and halves each part until it is flat enough. Vectors lie in the plane, seen from the arc's centre.
ghost use Rattle.std.specs.Prelude.{◌≡◌, [], ◌∷◌, ◌+◌, ◌-◌, ◌*◌, ◌^◌, ◌≤◌, ◌<◌, length};
ghost use Rattle.geo.specs.Outcome.{refusal};
ghost use Rattle.geo.specs.Refusal.{refused_by};
ghost use Rattle.geo.specs.Wrote.{WroteCommands};
ghost use Rattle.trial.specs.Traversal.{offset_of, cross2, dot2};
ghost use Rattle.pieces.specs.Written.{FitPlaced};
ghost use Rattle.flatten.specs.Parts.{centre_of, quarter_turn, turns_by, turns_before, stretched, middle, halved, quartered, parts_of};
ghost use Rattle.flatten.specs.Lines.{height_after, lines_of};
ghost use Rattle.flatten.specs.Written.{ray_of, bulge_of, low_line, low_lines, heightened};
ghost use Rattle.flatten.specs.Calls.{upright, near_radii, round_by, drawable, flatten_rows, flatten_call};

use floats::float::abs;
use floats::root::sqrt;
use geo::domain::{command_in, is_formed, is_tolerance, point3_in};
use geo::lent::{make_command, point_at, put_command, put_point};
use geo::point::get_length;
use geo::refusal::Refusal;
use geo::types::{Command, Point, Point3D};
use trial::trial::{cross, dot, offset};

// A vector and its length, which is rooted once. That the length is the vector's is asked of two functions below, and is no fact of the
// type: each definition that makes a ray would have to prove it.
#[derive(Clone, Copy)]
struct Ray {
    to: Point,
    len: f64,
}

impl Ray {
    // Neither radius may be below this.
    const SHORTEST: f64 = 1e-9;

    #[tactic(auto, unfolding(crate::specs::Written::ray_of, crate::specs::Parts::length_by))]
    fn new(to: Point) -> Self
        ensures { result ≡ ray_of to }
    {
        Self {
            to,
            len: get_length(to.x, to.y),
        }
    }
}

// What all parts of an arc share: its centre, the start radius, and what a part must bulge by less than.
#[derive(Clone, Copy)]
struct Round {
    center: Point,
    radius: f64,
    limit: f64,
}

impl Round {
    // A part bulges by less than this share of the tolerance.
    const SHARE: f64 = 0.25;

    // Each quarter is halved at most so many times over, and so has at most 1,024 parts.
    const HALVINGS: usize = 10;

    // Four quarters.
    const MOST_LINES: usize = 4096;
}

// The centre of the Arc from a: its offset is given from there.
#[tactic(auto, unfolding(crate::specs::Parts::centre_of))]
fn center(a: Point3D, o: Point3D) -> Point
    ensures { result ≡ centre_of a o }
{
    Point {
        x: a.x + o.x,
        y: a.y + o.y,
    }
}

// A point less the centre: both are operands, as the vectors and directions below are, and a struct of two would be made for
// one call.
fn vector(m: Point, p: Point3D) -> Ray
    ensures { result ≡ ray_of (offset_of m p) }
{
    Ray::new(offset(m, p))
}

// An exact quarter turn: the numbers exchanged, and one sign.
#[tactic(auto, unfolding(crate::specs::Parts::quarter_turn))]
fn quarter_turn(clockwise: bool, u: Point) -> Point
    ensures { result ≡ quarter_turn clockwise u }
{
    if clockwise {
        return Point { x: u.y, y: -u.x };
    }
    Point { x: -u.y, y: u.x }
}

fn turn(clockwise: bool, u: Point) -> Ray
    ensures { result ≡ ray_of (quarter_turn clockwise u) }
{
    Ray::new(quarter_turn(clockwise, u))
}

// How many quarter turns fall strictly before the end, by the signs of the cross of the first and the last vector, seen
// in the arc's direction, and of their dot.
#[tactic(auto, unfolding(crate::specs::Parts::turns_by))]
fn turns_by(c: f64, d: f64) -> usize
    ensures { result ≡ turns_by c d }
{
    if c > 0.0 {
        if d < 0.0 {
            return 1;
        }
        return 0;
    }
    if c < 0.0 {
        if d > 0.0 {
            return 3;
        }
        return 2;
    }
    if d > 0.0 {
        return 3;
    }
    1
}

fn turns_before(clockwise: bool, u: Point, w: Point) -> usize
    ensures count { result ≡ turns_before clockwise u w }
    ensures few { result ≤ 3 }
{
    let c = cross(u, w);
    let d = dot(u, w);
    if clockwise {
        return turns_by(-c, d);
    }
    turns_by(c, d)
}

// How far the arc of radius r bulges beyond the step from u to w. The cosine is taken as it comes out, above 1 too.
#[tactic(auto, unfolding(crate::specs::Written::bulge_of))]
fn bulge_of(r: f64, u: Ray, w: Ray) -> f64
    ensures { result ≡ bulge_of r u w }
{
    let c = dot(u.to, w.to) / (u.len * w.len);
    r * (1.0 - sqrt((1.0 + c) / 2.0))
}

// The vector s divided by its length, and then multiplied by r.
#[tactic(auto, unfolding(crate::specs::Parts::stretched, crate::specs::Parts::length_by))]
fn stretch(r: f64, s: Point) -> Point
    ensures { result ≡ stretched r s }
{
    let l = get_length(s.x, s.y);
    Point {
        x: s.x / l * r,
        y: s.y / l * r,
    }
}

// The vector that halves the part from u to w.
#[tactic(auto, unfolding(crate::specs::Parts::middle))]
fn halfway(r: f64, u: Point, w: Point) -> Ray
    ensures { result ≡ ray_of (middle r u w) }
{
    let s = Point {
        x: u.x + w.x,
        y: u.y + w.y,
    };
    Ray::new(stretch(r, s))
}

// Writes the Line to the centre plus v at place `at`; its height is set later. The outputs and the place stay parameters here and below: a
// struct proves too, but each method would promise of both references that they are those that they were, and the place is handed on.
fn put_line(m: Point, v: Point, kinds: &mut [u8], nums: &mut [f64], at: usize)
    requires { (at < length kinds.old) × (9 * at + 8 < length nums.old) }
    ensures { FitPlaced (low_line m v ∷ []) at 1 kinds.old kinds.new nums.old nums.new }
{
    let end = Point3D {
        x: m.x + v.x,
        y: m.y + v.y,
        z: 0.0,
    };
    put_command(kinds, nums, at, Command::Line { end });
}

// Writes the Lines of the part from u to w from place `at` on, with `left` halvings left, and answers how many they are.
fn draw_part(
    left: usize,
    g: Round,
    u: Ray,
    w: Ray,
    kinds: &mut [u8],
    nums: &mut [f64],
    at: usize,
) -> usize
    requires { (u ≡ ray_of u.to) × (w ≡ ray_of w.to) × (at + 2 ^ left ≤ length kinds.old) × (9 * (at + 2 ^ left) ≤ length nums.old) }
    ensures lines { FitPlaced (low_lines g.center (halved g.radius g.limit left u.to w.to)) at result kinds.old kinds.new nums.old nums.new }
    ensures few { (1 ≤ result) × (result ≤ 2 ^ left) }
{
    if left == 0 {
        put_line(g.center, w.to, kinds, nums, at);
        return 1;
    }
    if bulge_of(g.radius, u, w) < g.limit {
        put_line(g.center, w.to, kinds, nums, at);
        return 1;
    }
    let v = halfway(g.radius, u.to, w.to);
    let n = draw_part(left - 1, g, u, v, kinds, nums, at);
    let k = draw_part(left - 1, g, v, w, kinds, nums, at + n);
    n + k
}

// Writes the Lines of k quarter turns from u on, and of the rest up to w.
fn draw_quarters(
    k: usize,
    clockwise: bool,
    g: Round,
    u: Ray,
    w: Ray,
    kinds: &mut [u8],
    nums: &mut [f64],
    at: usize,
) -> usize
    requires { (u ≡ ray_of u.to) × (w ≡ ray_of w.to) × (at + (k + 1) * 1024 ≤ length kinds.old) × (9 * (at + (k + 1) * 1024) ≤ length nums.old) }
    ensures lines { FitPlaced (low_lines g.center (quartered clockwise g.radius g.limit k u.to w.to)) at result kinds.old kinds.new nums.old nums.new }
    ensures few { (1 ≤ result) × (result ≤ (k + 1) * 1024) }
{
    if k == 0 {
        return draw_part(Round::HALVINGS, g, u, w, kinds, nums, at);
    }
    let v = turn(clockwise, u.to);
    let n = draw_part(Round::HALVINGS, g, u, v, kinds, nums, at);
    let j = draw_quarters(k - 1, clockwise, g, v, w, kinds, nums, at + n);
    n + j
}

// The height after part i of n. The ends of the Arc are two, here and below: C hands over the one with the command, the other as its
// start.
#[tactic(auto, unfolding(crate::specs::Lines::height_after))]
fn height_after(a: Point3D, b: Point3D, n: usize, i: usize) -> f64
    requires { (n ≤ 4096) × (i ≤ 4096) }
    ensures { result ≡ height_after a b n i }
{
    a.z + (b.z - a.z) * (i as f64 / n as f64)
}

// The second pass: the heights of the first k of n Lines. How many they are is known only now. The list is C's, longer than the Lines, and
// cut to them it would need a law of what stays behind the cut: so both counts go with it.
fn set_heights(a: Point3D, b: Point3D, n: usize, k: usize, nums: &mut [f64])
    requires { (n ≤ 4096) × (k < n) × (9 * n ≤ length nums.old) }
    ensures { nums.new ≡ heightened (height_after a b n) k 0 nums.old }
{
    for i in 0..k {
        nums[9 * i + 2] = height_after(a, b, n, i + 1);
    }
}

// Draws the Arc from a to b: the Lines first, then their heights, and the last one's own end.
fn draw_arc(
    a: Point3D,
    b: Point3D,
    o: Point3D,
    clockwise: bool,
    tolerance: f64,
    kinds: &mut [u8],
    nums: &mut [f64],
) -> usize
    requires { (4096 ≤ length kinds.old) × (36864 ≤ length nums.old) }
    ensures { FitPlaced (lines_of (centre_of a o) a b (parts_of clockwise tolerance (centre_of a o) a b)) 0 result kinds.old kinds.new nums.old nums.new }
{
    let m = center(a, o);
    let u = vector(m, a);
    let w = vector(m, b);
    let k = turns_before(clockwise, u.to, w.to);
    let g = Round {
        center: m,
        radius: u.len,
        limit: tolerance * Round::SHARE,
    };
    let n = draw_quarters(k, clockwise, g, u, w, kinds, nums, 0);
    set_heights(a, b, n, n - 1, nums);
    put_point(nums, 9 * (n - 1), b);
    n
}

// Whether the normal is (0, 0, 1) or (0, 0, -1).
#[tactic(auto, unfolding(crate::specs::Calls::upright))]
fn is_upright(d: Point3D) -> bool
    ensures { result ≡ upright d }
{
    d.x == 0.0 && d.y == 0.0 && abs(d.z) == 1.0
}

// Whether neither radius is below 1e-9, and they are less than the tolerance apart.
#[tactic(auto, unfolding(crate::specs::Calls::near_radii))]
fn are_radii_near(tolerance: f64, r: f64, s: f64) -> bool
    ensures { result ≡ near_radii tolerance r s }
{
    !(r < Ray::SHORTEST) && !(s < Ray::SHORTEST) && abs(s - r) < tolerance
}

// Whether start and end lie on one circle round the centre, by the tolerance.
#[tactic(auto, unfolding(crate::specs::Calls::round_by, crate::specs::Written::ray_of))]
fn is_round(tolerance: f64, m: Point, a: Point3D, b: Point3D) -> bool
    ensures { result ≡ round_by tolerance m a b }
{
    let first = vector(m, a);
    let last = vector(m, b);
    are_radii_near(tolerance, first.len, last.len)
}

// Row 11: whether the command, of which C lends the kind as a byte, is an Arc that can be drawn.
#[tactic(auto, unfolding(crate::specs::Calls::drawable))]
fn is_drawable(kind: u8, a: Point3D, b: Point3D, o: Point3D, d: Point3D, tolerance: f64) -> bool
    ensures { result ≡ drawable kind a b o d tolerance }
{
    kind == 2 && is_upright(d) && point3_in(o) && is_round(tolerance, center(a, o), a, b)
}

// The first row that a call falls under, if there is one. The arguments are C's, one by one, here and below.
#[tactic(auto, unfolding(crate::specs::Calls::flatten_rows, geo::specs::Outcome::refusal, geo::specs::Domain::whole))]
fn check_arc(
    kind: u8,
    command: &[f64],
    start: Point3D,
    tolerance: f64,
    kinds: usize,
    nums: usize,
) -> Result<(), Refusal>
    ensures { refused_by result ≡ refusal (flatten_rows kind command.now start tolerance kinds nums) }
{
    if command.len() != 9 {
        return Err(Refusal::NotWhole);
    }
    if nums % 9 != 0 {
        return Err(Refusal::NotWhole);
    }
    let b = point_at(command, 0);
    let o = point_at(command, 1);
    let d = point_at(command, 2);
    if !is_formed(kind, o, d) {
        return Err(Refusal::BadCommand);
    }
    if !command_in(make_command(kind, b, o, d)) {
        return Err(Refusal::BadNumber);
    }
    if !point3_in(start) {
        return Err(Refusal::BadNumber);
    }
    if !is_tolerance(tolerance) {
        return Err(Refusal::BadTolerance);
    }
    if !is_drawable(kind, start, b, o, d, tolerance) {
        return Err(Refusal::NotDrawable);
    }
    if kinds < Round::MOST_LINES {
        return Err(Refusal::NoRoom);
    }
    if nums / 9 < Round::MOST_LINES {
        return Err(Refusal::NoRoom);
    }
    Ok(())
}

// Draws one Arc command, lent as its kind and its nine numbers, from its start on by Lines, and writes them to the front
// of both outputs.
pub fn flatten_arc(
    kind: u8,
    command: &[f64],
    start: Point3D,
    tolerance: f64,
    kinds: &mut [u8],
    nums: &mut [f64],
) -> Result<usize, Refusal>
    ensures { WroteCommands (flatten_call kind command.now start tolerance (length kinds.old) (length nums.old)) kinds.old kinds.new nums.old nums.new result }
{
    check_arc(kind, command, start, tolerance, kinds.len(), nums.len())?;
    let b = point_at(command, 0);
    let o = point_at(command, 1);
    let d = point_at(command, 2);
    let clockwise = d.z < 0.0;
    Ok(draw_arc(start, b, o, clockwise, tolerance, kinds, nums))
}
