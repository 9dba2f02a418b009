// Courses: their chains thinned and fitted, or a path's chains of Lines thinned or fitted.
ghost use Rattle.std.specs.Prelude.{length};
ghost use Rattle.course.specs.Course.{arcs_call, optimize_call};
ghost use Rattle.exports.specs.Plain.{ListedCommands};

use crate::counts::hand_cause;

// Fits the chains of a course.
#[unsafe(no_mangle)]
pub extern "C" fn pz_fit_arcs(
    kinds: &[u8],
    nums: &[f64],
    tolerance: f64,
    out_kinds: &mut [u8],
    out_nums: &mut [f64],
    count: &mut usize,
) -> u32
    ensures { ListedCommands (arcs_call kinds.now nums.now tolerance (length out_kinds.old) (length out_nums.old)) out_kinds.old out_kinds.new out_nums.old out_nums.new count.old count.new result }
{
    hand_cause(
        course::course::fit_arcs(kinds, nums, tolerance, out_kinds, out_nums),
        count,
    )
}

// Thins or fits the chains of Lines of a path.
#[unsafe(no_mangle)]
pub extern "C" fn pz_optimize_path_from_array(
    kinds: &[u8],
    nums: &[f64],
    tolerance: f64,
    use_fit_arcs: bool,
    out_kinds: &mut [u8],
    out_nums: &mut [f64],
    count: &mut usize,
) -> u32
    ensures { ListedCommands (optimize_call kinds.now nums.now tolerance use_fit_arcs (length out_kinds.old) (length out_nums.old)) out_kinds.old out_kinds.new out_nums.old out_nums.new count.old count.new result }
{
    hand_cause(
        course::course::optimize_path_from_array(
            kinds,
            nums,
            tolerance,
            use_fit_arcs,
            out_kinds,
            out_nums,
        ),
        count,
    )
}
