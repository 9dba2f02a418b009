// src/geo/algo/simplify.rs. The Rust's explicit stack of ranges is a recursion here, which marks left, cut, right.
ghost use Rattle.std.specs.Prelude.{◌≡◌, false, ◌/◌, ◌<◌, ◌≤◌, length};
ghost use Rattle.floats.specs.Ops.{◌≺◌, +0};
ghost use Rattle.geo.specs.Domain.{most_points};
ghost use Rattle.geo.specs.Outcome.{refusal};
ghost use Rattle.geo.specs.Refusal.{refused_by};
ghost use Rattle.geo.specs.Wrote.{Wrote, WroteCommands};
ghost use Rattle.geo.specs.Lent.{pair, triple, flat, point_at};
ghost use Rattle.farthest.specs.Measure.{measure_of};
ghost use Rattle.simplify.specs.Thin.{thinned_points};
ghost use Rattle.simplify.specs.Flags.{Copied};
ghost use Rattle.simplify.specs.Simplify.{point_rows, command_rows, simplify_form, simplify_polyline, simplify_polyline3d, simplify_data};

use crate::form::Form;
use crate::track::thin;
use crate::tracks::{InPlace, Listed, Points};
use farthest::farthest::Ruler;
use geo::domain::{MOST_POINTS, all_coordinates, check_input, is_tolerance};
use geo::lists::Commands;
use geo::refusal::Refusal;
use geo::types::{Point, Point3D};
use std::marker::PhantomData;

// Thins the triples of a slice in place, and answers how many are kept. That the limit is not below zero is asked, as track.rt says: a type
// of its own would hold one number, and each caller would make it.
pub fn thin_in_place(ruler: Ruler, points: &mut [f64], limit: f64) -> usize
    requires { ((limit ≺ +0) ≡ false) × (length points.old / 3 ≤ most_points) }
    ensures { Copied triple (thinned_points (measure_of ruler) limit (point_at points.old) (length points.old / 3)) points.old points.new result }
{
    let mut track = InPlace { ruler, points };
    thin(&mut track, limit)
}

// Why points of `width` numbers each are refused, or that they are not. What C lends is looked at one by one, here and below: a struct
// of it would be made for these tests alone. Document 01's rows run in number order, each over all arguments.
fn refuse_points(points: &[f64], width: usize, tolerance: f64, room: usize) -> Result<(), Refusal>
    requires { 0 < width }
    ensures { refused_by result ≡ refusal (point_rows width points.now tolerance room) }
{
    let size = points.len();
    if size % width != 0 {
        return Err(Refusal::NotWhole);
    }
    if room % width != 0 {
        return Err(Refusal::NotWhole);
    }
    if size / width > MOST_POINTS {
        return Err(Refusal::TooMany);
    }
    if !all_coordinates(points) {
        return Err(Refusal::BadNumber);
    }
    if !is_tolerance(tolerance) {
        return Err(Refusal::BadTolerance);
    }
    if room / width < size / width {
        return Err(Refusal::NoRoom);
    }
    Ok(())
}

// Why commands are refused, or that they are not. An output's room is that of the smaller of its two slices.
pub fn refuse_commands(
    kinds: &[u8],
    nums: &[f64],
    tolerance: f64,
    out_kinds: usize,
    out_nums: usize,
) -> Result<(), Refusal>
    ensures { refused_by result ≡ refusal (command_rows kinds.now nums.now tolerance out_kinds out_nums) }
{
    check_input(kinds, nums, tolerance, out_nums)?;
    let n = kinds.len();
    if out_kinds < n {
        return Err(Refusal::NoRoom);
    }
    if out_nums / 9 < n {
        return Err(Refusal::NoRoom);
    }
    Ok(())
}

// Thins points of a form to the front of out. A refusal changes nothing.
fn simplify_form<P: Form>(points: &[f64], tolerance: f64, out: &mut [f64]) -> Result<usize, Refusal>
    ensures { Wrote (flat P.form.lay) (simplify_form P.form points.now tolerance (length out.old)) out.old out.new result }
{
    refuse_points(points, P::WIDTH, tolerance, out.len())?;
    let form: PhantomData<P> = PhantomData;
    let mut track = Points { points, out, form };
    Ok(thin(&mut track, tolerance * tolerance))
}

// Thins pairs.
pub fn simplify_polyline(points: &[f64], tolerance: f64, out: &mut [f64]) -> Result<usize, Refusal>
    ensures { Wrote (flat pair) (simplify_polyline points.now tolerance (length out.old)) out.old out.new result }
{
    simplify_form::<Point>(points, tolerance, out)
}

// Thins triples; z is carried, and not measured.
pub fn simplify_polyline_3d(
    points: &[f64],
    tolerance: f64,
    out: &mut [f64],
) -> Result<usize, Refusal>
    ensures { Wrote (flat triple) (simplify_polyline3d points.now tolerance (length out.old)) out.old out.new result }
{
    simplify_form::<Point3D>(points, tolerance, out)
}

// Thins commands by their ends to the front of both outputs; every Move is kept.
pub fn simplify_data(
    kinds: &[u8],
    nums: &[f64],
    tolerance: f64,
    out_kinds: &mut [u8],
    out_nums: &mut [f64],
) -> Result<usize, Refusal>
    ensures { WroteCommands (simplify_data kinds.now nums.now tolerance (length out_kinds.old) (length out_nums.old)) out_kinds.old out_kinds.new out_nums.old out_nums.new result }
{
    refuse_commands(kinds, nums, tolerance, out_kinds.len(), out_nums.len())?;
    let mut listed = Listed {
        commands: Commands { kinds, nums },
        kinds: out_kinds,
        nums: out_nums,
    };
    Ok(thin(&mut listed, tolerance * tolerance))
}
