// src/geo/shape/arc.rs: the part that is carried over.
ghost use Rattle.std.specs.Prelude.{◌≡◌, ◌-◌, ◌/◌, ◌≤◌, length};
ghost use Rattle.geo.specs.Lent.{pair_at};
ghost use Rattle.geo.specs.Outcome.{refusal};
ghost use Rattle.geo.specs.Refusal.{outcome, refused_by};
ghost use Rattle.arc.specs.Direction.{turn_at, cross_sum, direction_rows, direction_call};

use geo::domain::{MOST_POINTS, all_coordinates, is_centre};
use geo::lent::pair_at;
use geo::refusal::Refusal;
use geo::types::Point;

// The cross product of the directions from the centre to two points, which are its operands.
#[tactic(auto, unfolding(crate::specs::Direction::turn_at))]
pub fn turn(center: Point, p: Point, q: Point) -> f64
    ensures { result ≡ turn_at center p q }
{
    let v0x = p.x - center.x;
    let v0y = p.y - center.y;
    let v1x = q.x - center.x;
    let v1y = q.y - center.y;
    v0x * v1y - v0y * v1x
}

// The cross products of each two neighbours, added up: a `for`, since the sum is rounded after each of them, from the first on. Points
// and centre are two, here and below, as C hands them over. That there is a point is a row of `check_direction`, and asked here alone.
#[tactic(auto, unfolding(crate::specs::Direction::cross_sum))]
fn sum_turns(points: &[f64], center: Point) -> f64
    requires { 1 ≤ length points.now / 2 }
    ensures { result ≡ cross_sum (pair_at points.now) 0 (length points.now / 2 - 1) center }
{
    let mut sum = 0.0;
    for i in 0..points.len() / 2 - 1 {
        sum += turn(center, pair_at(points, i), pair_at(points, i + 1));
    }
    sum
}

// The first row of the table that `is_arc_clockwise` falls under.
#[tactic(auto, unfolding(crate::specs::Direction::direction_rows, geo::specs::Outcome::refusal, geo::specs::Domain::whole))]
fn check_direction(points: &[f64], center: Point) -> Result<(), Refusal>
    ensures { refused_by result ≡ refusal (direction_rows points.now center) }
{
    if points.len() % 2 != 0 {
        return Err(Refusal::NotWhole);
    }
    if MOST_POINTS < points.len() / 2 {
        return Err(Refusal::TooMany);
    }
    if !(all_coordinates(points) && is_centre(center.x) && is_centre(center.y)) {
        return Err(Refusal::BadNumber);
    }
    if points.len() / 2 == 0 {
        return Err(Refusal::NoSuch);
    }
    Ok(())
}

// Determines if points along an arc go clockwise round the center, by the sum of the cross products of neighbours.
pub fn is_arc_clockwise(points: &[f64], center: Point) -> Result<bool, Refusal>
    ensures { outcome result ≡ direction_call points.now center }
{
    check_direction(points, center)?;
    Ok(sum_turns(points, center) < 0.0)
}
