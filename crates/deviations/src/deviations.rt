// src/geo/algo/fitting.rs: the greatest deviation of points from a line, and from an arc.
ghost use Rattle.std.specs.Prelude.{◌≡◌, ◌+◌, ◌*◌, ◌<◌, length};
ghost use Rattle.geo.specs.Lent.{point_at};
ghost use Rattle.geo.specs.Outcome.{refusal};
ghost use Rattle.geo.specs.Refusal.{outcome, refused_by};
ghost use Rattle.farthest.specs.Measure.{measure_of};
ghost use Rattle.deviations.specs.Line.{line_deviation};
ghost use Rattle.deviations.specs.Calls.{line_rows, line_call, arc_rows, arc_call};

use circle::circle::{Circle, Deviation, check_points};
use farthest::farthest::{Ruler, farthest_between};
use floats::root::sqrt;
use geo::domain::{is_centre, is_radius};
use geo::lists::Stretch;
use geo::refusal::Refusal;
use geo::types::Point;
use trial::trial::arc_deviation;

// The greatest distance of a point from the Line between the stretch's ends, and the first point that has it: the start with 0
// where nothing lies between.
#[tactic(auto, unfolding(crate::specs::Line::line_deviation, crate::specs::Line::rooted))]
pub fn line_deviation(ruler: Ruler, stretch: Stretch) -> Deviation
    ensures { result ≡ line_deviation (measure_of ruler) (point_at stretch.entry.points.now) stretch.entry.start stretch.entry.end }
{
    let w = farthest_between(ruler, stretch);
    Deviation {
        dist: sqrt(w.square),
        index: w.index,
    }
}

// The first row that a line's deviation falls under. The list and its two indices stand one by one, here and in the call: they make a
// `Stretch` only once they are checked. It and `check_arc` are two, since they follow two tables.
#[tactic(auto, using(crate::proofs::Accepted::points_refused, crate::proofs::Accepted::points_passed), unfolding(crate::specs::Calls::line_rows, geo::specs::Outcome::refusal))]
fn check_line(points: &[f64], start: usize, end: usize) -> Result<(), Refusal>
    ensures { refused_by result ≡ refusal (line_rows points.now start end) }
{
    check_points(points)?;
    let n = points.len() / 3;
    if n <= start || n <= end {
        return Err(Refusal::NoSuch);
    }
    Ok(())
}

// Maximum distance of points from the line through the points at start and end, and the first index that has it. Where start is
// behind end no point is between them.
pub fn get_polyline_line_deviation(
    points: &[f64],
    start: usize,
    end: usize,
) -> Result<Deviation, Refusal>
    ensures { outcome result ≡ line_call points.now start end }
{
    check_line(points, start, end)?;
    let range = Stretch { points, start, end };
    Ok(line_deviation(Ruler::Line, range))
}

// The first row that an arc's deviation falls under.
#[tactic(auto, using(crate::proofs::Accepted::points_refused, crate::proofs::Accepted::points_passed), unfolding(crate::specs::Calls::arc_rows, geo::specs::Outcome::refusal))]
fn check_arc(points: &[f64], arc: Circle) -> Result<(), Refusal>
    ensures { refused_by result ≡ refusal (arc_rows points.now arc.center arc.radius) }
{
    check_points(points)?;
    if !(is_centre(arc.center.x) && is_centre(arc.center.y) && is_radius(arc.radius)) {
        return Err(Refusal::BadNumber);
    }
    Ok(())
}

// Maximum deviation of a polyline from the circle around center, which C hands over by its parts, and the first step that reaches it:
// 0 where there is none above 0.
pub fn get_polyline_arc_deviation(
    points: &[f64],
    center: Point,
    radius: f64,
) -> Result<Deviation, Refusal>
    ensures { outcome result ≡ arc_call points.now center radius }
{
    let arc = Circle { center, radius };
    check_arc(points, arc)?;
    let n = points.len() / 3;
    if n < 2 {
        return Ok(Deviation {
            dist: 0.0,
            index: 0,
        });
    }
    let all = Stretch {
        points,
        start: 0,
        end: n - 1,
    };
    Ok(arc_deviation(all, arc))
}
