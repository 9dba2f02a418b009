// Thinning: a list of points or of commands, and which of them stand for the rest within a tolerance.
ghost use Rattle.std.specs.Prelude.{length};
ghost use Rattle.geo.specs.Lent.{pair, triple, flat};
ghost use Rattle.simplify.specs.Simplify.{simplify_polyline, simplify_polyline3d, simplify_data};
ghost use Rattle.exports.specs.Plain.{Listed, ListedCommands};

use crate::counts::hand_cause;

// Thins points in the plane.
#[unsafe(no_mangle)]
pub extern "C" fn pz_simplify_polyline(
    points: &[f64],
    tolerance: f64,
    out: &mut [f64],
    count: &mut usize,
) -> u32
    ensures { Listed (flat pair) (simplify_polyline points.now tolerance (length out.old)) out.old out.new count.old count.new result }
{
    hand_cause(
        simplify::simplify::simplify_polyline(points, tolerance, out),
        count,
    )
}

// Thins points in space.
#[unsafe(no_mangle)]
pub extern "C" fn pz_simplify_polyline_3d(
    points: &[f64],
    tolerance: f64,
    out: &mut [f64],
    count: &mut usize,
) -> u32
    ensures { Listed (flat triple) (simplify_polyline3d points.now tolerance (length out.old)) out.old out.new count.old count.new result }
{
    hand_cause(
        simplify::simplify::simplify_polyline_3d(points, tolerance, out),
        count,
    )
}

// Thins commands.
#[unsafe(no_mangle)]
pub extern "C" fn pz_simplify_data(
    kinds: &[u8],
    nums: &[f64],
    tolerance: f64,
    out_kinds: &mut [u8],
    out_nums: &mut [f64],
    count: &mut usize,
) -> u32
    ensures { ListedCommands (simplify_data kinds.now nums.now tolerance (length out_kinds.old) (length out_nums.old)) out_kinds.old out_kinds.new out_nums.old out_nums.new count.old count.new result }
{
    hand_cause(
        simplify::simplify::simplify_data(kinds, nums, tolerance, out_kinds, out_nums),
        count,
    )
}
