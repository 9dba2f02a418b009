// Both deviations, and the fit of points into Lines and Arcs.
ghost use Rattle.std.specs.Prelude.{◌≡◌, length};
ghost use Rattle.geo.specs.Outcome.{left};
ghost use Rattle.deviations.specs.Calls.{line_call, arc_call};
ghost use Rattle.fitting.specs.Calls.{fit_call, worst_call, primitives_call, primitives_worst, examined};
ghost use Rattle.exports.specs.Plain.{plane_point, Told, ListedCommands};

use crate::counts::hand_cause;
use geo::types::Point;

// The greatest distance of a point from the line through the points at start and end, and the first point that has it.
#[unsafe(no_mangle)]
pub extern "C" fn pz_get_polyline_line_deviation(
    points: &[f64],
    start: usize,
    end: usize,
    dist: &mut f64,
    index: &mut usize,
) -> u32
    ensures dist { Told (λ w. w.dist) (line_call points.now start end) dist.old dist.new result }
    ensures index { Told (λ w. w.index) (line_call points.now start end) index.old index.new result }
{
    match deviations::deviations::get_polyline_line_deviation(points, start, end) {
        Ok(w) => {
            *dist = w.dist;
            *index = w.index;
            0
        }
        Err(cause) => u32::from(cause),
    }
}

// The greatest deviation of a polyline from a circle, and the first step that reaches it.
#[unsafe(no_mangle)]
pub extern "C" fn pz_get_polyline_arc_deviation(
    points: &[f64],
    cx: f64,
    cy: f64,
    radius: f64,
    dist: &mut f64,
    index: &mut usize,
) -> u32
    ensures dist { Told (λ w. w.dist) (arc_call points.now (plane_point cx cy) radius) dist.old dist.new result }
    ensures index { Told (λ w. w.index) (arc_call points.now (plane_point cx cy) radius) index.old index.new result }
{
    let center = Point { x: cx, y: cy };
    match deviations::deviations::get_polyline_arc_deviation(points, center, radius) {
        Ok(worst) => {
            *dist = worst.dist;
            *index = worst.index;
            0
        }
        Err(cause) => u32::from(cause),
    }
}

// Fits the points from start to end; beside each command the worst step of an Arc, 0 for a Line.
#[unsafe(no_mangle)]
pub extern "C" fn pz_fit_points_recursive(
    points: &[f64],
    tolerance: f64,
    start: usize,
    end: usize,
    kinds: &mut [u8],
    nums: &mut [f64],
    worst: &mut [u32],
    count: &mut usize,
) -> u32
    ensures commands { ListedCommands (fit_call points.now tolerance start end (length kinds.old) (length nums.old) (length worst.old)) kinds.old kinds.new nums.old nums.new count.old count.new result }
    ensures worst { worst.new ≡ left (λ ws. ws) worst.old (worst_call points.now tolerance start end (length kinds.old) (length nums.old) (length worst.old)) }
{
    hand_cause(
        fitting::fitting::fit_points_recursive(points, tolerance, start, end, kinds, nums, worst),
        count,
    )
}

// Fits all points, and tells how many ranges were examined; beside each command the worst step of an Arc, 0 for a Line.
#[unsafe(no_mangle)]
pub extern "C" fn pz_fit_points_with_primitives(
    points: &[f64],
    tolerance: f64,
    kinds: &mut [u8],
    nums: &mut [f64],
    worst: &mut [u32],
    count: &mut usize,
    ranges: &mut usize,
) -> u32
    ensures commands { ListedCommands (primitives_call points.now tolerance (length kinds.old) (length nums.old) (length worst.old)) kinds.old kinds.new nums.old nums.new count.old count.new result }
    ensures ranges { Told (λ _. examined points.now tolerance) (primitives_call points.now tolerance (length kinds.old) (length nums.old) (length worst.old)) ranges.old ranges.new result }
    ensures worst { worst.new ≡ left (λ ws. ws) worst.old (primitives_worst points.now tolerance (length kinds.old) (length nums.old) (length worst.old)) }
{
    match fitting::fitting::fit_points_with_primitives(points, tolerance, kinds, nums, worst) {
        Ok(fit) => {
            *count = fit.count;
            *ranges = fit.ranges;
            0
        }
        Err(cause) => u32::from(cause),
    }
}
