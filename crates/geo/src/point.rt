// src/geo/shape/point.rs: the midpoint; and glam's operations on points that the ported functions use.
ghost use Rattle.std.specs.Prelude.{◌≡◌};
ghost use Rattle.geo.specs.Vector.{distance, distance_sq, distance3, length_of, lerp, midpoint};
ghost use Rattle.geo.specs.Midpoint.{midpoint_call};
ghost use Rattle.geo.specs.Refusal.{outcome};

use crate::domain::point3_in;
use crate::refusal::Refusal;
use crate::types::{Point, Point3D};
use floats::root::sqrt;

// The length of a direction in the plane.
pub fn get_length(x: f64, y: f64) -> f64
    ensures { result ≡ length_of x y }
{
    sqrt(x * x + y * y)
}

// Two points are two parameters, here and below: each formula takes both alike, and a struct of two would be made for one call.
pub fn get_distance(p: Point, q: Point) -> f64
    ensures { result ≡ distance p q }
{
    get_length(p.x - q.x, p.y - q.y)
}

#[tactic(auto, unfolding(crate::specs::Vector::distance_sq))]
pub fn get_distance_squared(p: Point, q: Point) -> f64
    ensures { result ≡ distance_sq p q }
{
    let x = p.x - q.x;
    let y = p.y - q.y;
    x * x + y * y
}

pub fn get_distance_3d(p: Point3D, q: Point3D) -> f64
    ensures { result ≡ distance3 p q }
{
    let x = p.x - q.x;
    let y = p.y - q.y;
    let z = p.z - q.z;
    sqrt(x * x + y * y + z * z)
}

// The point at parameter t between a and b.
#[tactic(auto, unfolding(crate::specs::Vector::lerp))]
pub fn interpolate(a: Point, b: Point, t: f64) -> Point
    ensures { result ≡ lerp a b t }
{
    let s = 1.0 - t;
    Point {
        x: a.x * s + b.x * t,
        y: a.y * s + b.y * t,
    }
}

// The midpoint, of any two points.
#[tactic(auto, unfolding(crate::specs::Vector::midpoint))]
pub fn midpoint_3d(a: Point3D, b: Point3D) -> Point3D
    ensures { result ≡ midpoint a b }
{
    Point3D {
        x: (a.x + b.x) / 2.0,
        y: (a.y + b.y) / 2.0,
        z: (a.z + b.z) / 2.0,
    }
}

// The midpoint of two points of the domain.
#[tactic(auto, unfolding(crate::specs::Midpoint::midpoint_call))]
pub fn get_midpoint_3d(a: Point3D, b: Point3D) -> Result<Point3D, Refusal>
    ensures { outcome result ≡ midpoint_call a b }
{
    if !(point3_in(a) && point3_in(b)) {
        return Err(Refusal::BadNumber);
    }
    Ok(midpoint_3d(a, b))
}
