// Document 01's domain: its limits, each once, and its tests, each false of a NaN.
ghost use Rattle.std.specs.Prelude.{◌≡◌, ◌*◌, ◌≤◌, length};
ghost use Rattle.geo.specs.Outcome.{refusal};
ghost use Rattle.geo.specs.Refusal.{refused_by};
ghost use Rattle.geo.specs.Commands.{input_rows};
ghost use Rattle.geo.specs.Domain.{coordinate, is_finite, centre, within, radius, parameter, tolerance, tolerance_sq, is_plus_zero, point_in, point3_in, numbers_in, zero3, finite3, formed, commands_formed, command_in, commands_in};

use crate::lists::Commands;
use crate::refusal::Refusal;
use crate::types::{Command, Point, Point3D};
use floats::float::abs;

// A points list holds 0 to 2,048, a command list 0 to 800.
pub const MOST_POINTS: usize = 2048;

pub const MOST_COMMANDS: usize = 800;

// An end or a control is at most this far from zero in each coordinate; a centre that is handed in, and its radius, at most that far.
const FAR: f64 = 1000000.0;

const FAR_CENTRE: f64 = 1e12;

// The ends of tolerances and resolutions, and of squared tolerances.
const FINEST: f64 = 0.001;

const COARSEST: f64 = 1000.0;

const FINEST_SQUARED: f64 = 1e-6;

const COARSEST_SQUARED: f64 = 1000000.0;

// Whether x may be a coordinate of an end or a control.
fn is_coordinate(x: f64) -> bool
    ensures { result ≡ coordinate x }
{
    is_within(-FAR, FAR, x)
}

// Whether x is a number, and no infinity.
fn is_finite(x: f64) -> bool
    ensures { result ≡ is_finite x }
{
    x.is_finite()
}

// Whether x may be a coordinate of a centre that is handed in.
pub fn is_centre(x: f64) -> bool
    ensures { result ≡ centre x }
{
    abs(x) <= FAR_CENTRE
}

// Whether x lies from least to most.
#[tactic(auto, unfolding(crate::specs::Domain::within))]
pub fn is_within(least: f64, most: f64, x: f64) -> bool
    ensures { result ≡ within least most x }
{
    least <= x && x <= most
}

// Whether r may be a radius.
pub fn is_radius(r: f64) -> bool
    ensures { result ≡ radius r }
{
    is_within(0.0, FAR_CENTRE, r)
}

// Whether t may be a curve's parameter.
pub fn is_parameter(t: f64) -> bool
    ensures { result ≡ parameter t }
{
    is_within(0.0, 1.0, t)
}

// Whether t may be a tolerance or a resolution.
pub fn is_tolerance(t: f64) -> bool
    ensures { result ≡ tolerance t }
{
    is_within(FINEST, COARSEST, t)
}

// Whether t may be a squared tolerance.
pub fn is_tolerance_squared(t: f64) -> bool
    ensures { result ≡ tolerance_sq t }
{
    is_within(FINEST_SQUARED, COARSEST_SQUARED, t)
}

// Whether x is +0, the bit pattern 0.
fn is_plus_zero(x: f64) -> bool
    ensures { result ≡ is_plus_zero x }
{
    x == 0.0 && f64::to_bits(x) == 0
}

#[tactic(auto, unfolding(crate::specs::Domain::point_in))]
pub fn point_in(p: Point) -> bool
    ensures { result ≡ point_in p }
{
    is_coordinate(p.x) && is_coordinate(p.y)
}

#[tactic(auto, unfolding(crate::specs::Domain::point3_in))]
pub fn point3_in(p: Point3D) -> bool
    ensures { result ≡ point3_in p }
{
    is_coordinate(p.x) && is_coordinate(p.y) && is_coordinate(p.z)
}

#[tactic(auto, unfolding(crate::specs::Domain::zero3))]
fn is_zero3(p: Point3D) -> bool
    ensures { result ≡ zero3 p }
{
    is_plus_zero(p.x) && is_plus_zero(p.y) && is_plus_zero(p.z)
}

// Whether the three numbers of a point, offset or normal are finite.
#[tactic(auto, unfolding(crate::specs::Domain::finite3))]
pub fn is_finite3(p: Point3D) -> bool
    ensures { result ≡ finite3 p }
{
    is_finite(p.x) && is_finite(p.y) && is_finite(p.z)
}

// Whether each lent number may be a coordinate. It goes to the end whatever it meets, so that the machine can test
// several numbers at a time: so a `for`, where `all` would stop. It goes by index, as the definition does; a law of what an iterator
// has left would be no plainer.
pub fn all_coordinates(nums: &[f64]) -> bool
    ensures { result ≡ numbers_in coordinate nums.now }
{
    let mut all = true;
    for i in 0..nums.len() {
        if !is_coordinate(nums[i]) {
            all = false;
        }
    }
    all
}

// Whether the kind, a byte as it is lent, is known, and the numbers that it does not use are +0. Of its three points only the two
// behind the end may go unused.
#[tactic(auto, unfolding(crate::specs::Domain::formed))]
pub fn is_formed(kind: u8, q: Point3D, r: Point3D) -> bool
    ensures { result ≡ formed kind q r }
{
    if kind < 2 {
        return is_zero3(q) && is_zero3(r);
    }
    kind < 4
}

// Whether the numbers of a command are in the domain.
#[tactic(auto, unfolding(crate::specs::Domain::command_in))]
pub fn command_in(c: Command) -> bool
    ensures { result ≡ command_in c }
{
    match c {
        Command::Move { end } => point3_in(end),
        Command::Line { end } => point3_in(end),
        Command::Arc {
            end,
            center_offset,
            normal,
        } => { point3_in(end) && is_finite3(center_offset) && is_finite3(normal) }
        Command::Bezier {
            end,
            control1,
            control2,
        } => { point3_in(end) && point3_in(control1) && point3_in(control2) }
    }
}

// The first of the rows 1 to 6 that lent commands, a tolerance and an output of so many numbers fall under. The two lists are no
// `Commands` before the first row is passed.
#[tactic(auto, unfolding(crate::specs::Outcome::refusal, crate::specs::Domain::whole))]
pub fn check_input(
    kinds: &[u8],
    nums: &[f64],
    tolerance: f64,
    out_nums: usize,
) -> Result<(), Refusal>
    ensures { refused_by result ≡ refusal (input_rows kinds.now nums.now tolerance out_nums) }
{
    let size = nums.len();
    if size % 9 != 0 || size / 9 != kinds.len() || out_nums % 9 != 0 {
        return Err(Refusal::NotWhole);
    }
    if kinds.len() > MOST_COMMANDS {
        return Err(Refusal::TooMany);
    }
    let commands = Commands { kinds, nums };
    if !commands.are_formed() {
        return Err(Refusal::BadCommand);
    }
    if !commands.are_in() {
        return Err(Refusal::BadNumber);
    }
    if !is_tolerance(tolerance) {
        return Err(Refusal::BadTolerance);
    }
    Ok(())
}
