// src/geo/algo/fitting.rs: the fits of a list of points.
ghost use Rattle.std.specs.Prelude.{◌≡◌, not, ◌&&◌, map, ◌-◌, ◌*◌, ◌≤◌, length, ltb};
ghost use Rattle.geo.specs.Domain.{most_points};
ghost use Rattle.geo.specs.Lent.{flat, kind_of, numbers_of};
ghost use Rattle.geo.specs.Outcome.{refusal, left};
ghost use Rattle.geo.specs.Refusal.{outcome, refused_by};
ghost use Rattle.geo.specs.Wrote.{Wrote, WroteCommands};
ghost use Rattle.fitting.specs.Calls.{fit_rows, fit_call, worst_call, primitives_call, primitives_worst, examined, primitives_answer};

use circle::circle::check_points;
use geo::domain::is_tolerance;
use geo::lists::Stretch;
use geo::refusal::Refusal;
use pieces::pieces::Rule;
use ranges::ranges::{FitRule, fit_range};

// What fit_points_with_primitives answers: how many commands it wrote, and how many ranges it examined.
#[derive(Clone, Copy)]
pub struct Primitives {
    pub count: usize,
    pub ranges: usize,
}

// Whether a range with steps ends outside of n points.
fn is_outside(n: usize, start: usize, end: usize) -> bool
    ensures { result ≡ (ltb start end && not (ltb end n)) }
{
    start < end && n <= end
}

// The first row that a fit falls under. No step lies between two indices of which the first is not below the second. The points, the tolerance
// and the indices are parameters here and below, and so are the outputs: C lends them one by one, and of what is not yet checked no value has a fact.
#[tactic(auto, using(deviations::proofs::Accepted::points_refused, deviations::proofs::Accepted::points_passed), unfolding(crate::specs::Calls::fit_rows, geo::specs::Outcome::refusal, geo::specs::Domain::whole))]
fn check_fit(
    points: &[f64],
    tolerance: f64,
    start: usize,
    end: usize,
    kinds: usize,
    nums: usize,
    places: usize,
) -> Result<(), Refusal>
    ensures { refused_by result ≡ refusal (fit_rows points.now tolerance start end kinds nums places) }
{
    if nums % 9 != 0 {
        return Err(Refusal::NotWhole);
    }
    check_points(points)?;
    if !is_tolerance(tolerance) {
        return Err(Refusal::BadTolerance);
    }
    if is_outside(points.len() / 3, start, end) {
        return Err(Refusal::NoSuch);
    }
    let most = end.saturating_sub(start);
    if kinds < most || nums / 9 < most || places < most {
        return Err(Refusal::NoRoom);
    }
    Ok(())
}

// Recursively fits primitives to the points from start to end, and writes them to the front of both outputs; beside each
// the worst step of an Arc, 0 for a Line.
pub fn fit_points_recursive(
    points: &[f64],
    tolerance: f64,
    start: usize,
    end: usize,
    kinds: &mut [u8],
    nums: &mut [f64],
    worst: &mut [u32],
) -> Result<usize, Refusal>
    ensures commands { WroteCommands (fit_call points.now tolerance start end (length kinds.old) (length nums.old) (length worst.old)) kinds.old kinds.new nums.old nums.new result }
    ensures worst { Wrote (λ ws. ws) (worst_call points.now tolerance start end (length kinds.old) (length nums.old) (length worst.old)) worst.old worst.new result }
{
    check_fit(
        points,
        tolerance,
        start,
        end,
        kinds.len(),
        nums.len(),
        worst.len(),
    )?;
    if end <= start {
        return Ok(0);
    }
    let route = Stretch { points, start, end };
    let rule = FitRule {
        rule: Rule::of_points(tolerance),
    };
    Ok(fit_range(rule, route, kinds, nums, worst, 0))
}

// How many ranges a fit of n pieces examined: each piece is one, and each cut one more.
fn ranges_of(n: usize) -> usize
    requires { n ≤ most_points }
    ensures { result ≡ 2 * n - 1 }
{
    (2 * n).saturating_sub(1)
}

// Fits primitives to all points, and tells how many ranges it examined; beside each command the worst step of an Arc, 0
// for a Line.
pub fn fit_points_with_primitives(
    points: &[f64],
    tolerance: f64,
    kinds: &mut [u8],
    nums: &mut [f64],
    worst: &mut [u32],
) -> Result<Primitives, Refusal>
    ensures says { outcome result ≡ primitives_answer (primitives_call points.now tolerance (length kinds.old) (length nums.old) (length worst.old)) (examined points.now tolerance) }
    ensures kinds { kinds.new ≡ left (map kind_of) kinds.old (primitives_call points.now tolerance (length kinds.old) (length nums.old) (length worst.old)) }
    ensures numbers { nums.new ≡ left (flat numbers_of) nums.old (primitives_call points.now tolerance (length kinds.old) (length nums.old) (length worst.old)) }
    ensures worst { worst.new ≡ left (λ ws. ws) worst.old (primitives_worst points.now tolerance (length kinds.old) (length nums.old) (length worst.old)) }
{
    let last = (points.len() / 3).saturating_sub(1);
    let count = fit_points_recursive(points, tolerance, 0, last, kinds, nums, worst)?;
    Ok(Primitives {
        count,
        ranges: ranges_of(count),
    })
}
