// Reading and writing points and commands as they are lent.
ghost use Rattle.std.specs.Prelude.{◌≡◌, ◌+◌, ◌*◌, ◌<◌, ◌++◌, length, set};
ghost use Rattle.std.proofs.lemmas.List.Edits.{sets};
ghost use Rattle.geo.specs.Lent.{pair_at, point_at, command_at, command_of, pair, triple, kind_of, numbers_of};

use crate::types::{Command, Point, Point3D};

// The point at index i of lent pairs. The list and the index are two parameters, here and below: a value of both would be made for
// each point that is read, and a list that is handed on is a `Stretch` or `Commands` already.
#[tactic(auto, unfolding(crate::specs::Lent::pair_at))]
pub fn pair_at(points: &[f64], i: usize) -> Point
    requires { 2 * i + 1 < length points.now }
    ensures { result ≡ pair_at points.now i }
{
    let b = 2 * i;
    Point {
        x: points[b],
        y: points[b + 1],
    }
}

// The point at index i of lent triples.
#[tactic(auto, unfolding(crate::specs::Lent::point_at))]
pub fn point_at(points: &[f64], i: usize) -> Point3D
    requires { 3 * i + 2 < length points.now }
    ensures { result ≡ point_at points.now i }
{
    let b = 3 * i;
    Point3D {
        x: points[b],
        y: points[b + 1],
        z: points[b + 2],
    }
}

// Writes the two numbers of p from `at` on. The output, the place and what is written are parameters, here and below: the place moves
// on with each write, so a struct would hold the borrow for one.
pub fn put_pair(out: &mut [f64], at: usize, p: Point)
    requires { at + 1 < length out.old }
    ensures { out.new ≡ sets out.old at (pair p) }
{
    out[at] = p.x;
    out[at + 1] = p.y;
}

// Writes the three numbers of p from `at` on.
pub fn put_point(out: &mut [f64], at: usize, p: Point3D)
    requires { at + 2 < length out.old }
    ensures { out.new ≡ sets out.old at (triple p) }
{
    out[at] = p.x;
    out[at + 1] = p.y;
    out[at + 2] = p.z;
}

// The command of a kind and three points. A kind is a number, since C lends it as a byte and a lap file holds it as one; where it
// is read it becomes a command. Its three points are no struct before that: what each is the kind alone says.
pub fn make_command(kind: u8, p: Point3D, q: Point3D, r: Point3D) -> Command
    ensures { result ≡ command_of kind p q r }
{
    match kind {
        0 => Command::Move { end: p },
        1 => Command::Line { end: p },
        2 => Command::Arc {
            end: p,
            center_offset: q,
            normal: r,
        },
        _ => Command::Bezier {
            end: p,
            control1: q,
            control2: r,
        },
    }
}

// The command at index i of lent commands, of which this one alone has to have its numbers. The lists and the index are three, here and
// in `put_command`, as above.
pub fn command_at(kinds: &[u8], nums: &[f64], i: usize) -> Command
    requires { (i < length kinds.now) × (9 * i + 8 < length nums.now) }
    ensures { result ≡ command_at kinds.now nums.now i }
{
    let b = 3 * i;
    let p = point_at(nums, b);
    let q = point_at(nums, b + 1);
    let r = point_at(nums, b + 2);
    make_command(kinds[i], p, q, r)
}

// Writes three points from `at` on.
fn put_points(out: &mut [f64], at: usize, p: Point3D, q: Point3D, r: Point3D)
    requires { at + 8 < length out.old }
    ensures { out.new ≡ sets out.old at (triple p ++ triple q ++ triple r) }
{
    put_point(out, at, p);
    put_point(out, at + 3, q);
    put_point(out, at + 6, r);
}

// Writes a command at index i: its kind, by the numbers of `make_command`, and its nine numbers.
pub fn put_command(kinds: &mut [u8], nums: &mut [f64], i: usize, c: Command)
    requires { (i < length kinds.old) × (9 * i + 8 < length nums.old) }
    ensures kinds { kinds.new ≡ set kinds.old i (kind_of c) }
    ensures numbers { nums.new ≡ sets nums.old (9 * i) (numbers_of c) }
{
    let b = 9 * i;
    let o = Point3D::ZERO;
    match c {
        Command::Move { end } => {
            kinds[i] = 0;
            put_points(nums, b, end, o, o);
        }
        Command::Line { end } => {
            kinds[i] = 1;
            put_points(nums, b, end, o, o);
        }
        Command::Arc {
            end,
            center_offset,
            normal,
        } => {
            kinds[i] = 2;
            put_points(nums, b, end, center_offset, normal);
        }
        Command::Bezier {
            end,
            control1,
            control2,
        } => {
            kinds[i] = 3;
            put_points(nums, b, end, control1, control2);
        }
    }
}
