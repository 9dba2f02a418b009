// Lap files: the fit of each lap, flat or for hills, and the replacement of one. A file passes as its bytes, and the count is that of bytes.
ghost use Rattle.std.specs.Prelude.{List, ℕ, length};
ghost use Rattle.lap_fit.specs.Fit.{fit_file, hill_file};
ghost use Rattle.lap_replace.specs.Replace.{replace_lap};
ghost use Rattle.exports.specs.Plain.{Listed};

use crate::counts::hand_cause;

// Fits each lap of a recorded file.
#[unsafe(no_mangle)]
pub extern "C" fn pz_fit_file(
    recorded: &[u8],
    tolerance: f64,
    out: &mut [u8],
    count: &mut usize,
) -> u32
    ensures { Listed (λ (bytes : List ℕ). bytes) (fit_file recorded.now tolerance (length out.old)) out.old out.new count.old count.new result }
{
    hand_cause(lap_fit::fit::fit_file(recorded, tolerance, out), count)
}

// Fits each lap of a recorded file for hills: straights alone, by the distance in x, y and z.
#[unsafe(no_mangle)]
pub extern "C" fn pz_fit_hills(
    recorded: &[u8],
    tolerance: f64,
    out: &mut [u8],
    count: &mut usize,
) -> u32
    ensures { Listed (λ (bytes : List ℕ). bytes) (hill_file recorded.now tolerance (length out.old)) out.old out.new count.old count.new result }
{
    hand_cause(lap_fit::fit::fit_hills(recorded, tolerance, out), count)
}

// Replaces one lap of a fitted file.
#[unsafe(no_mangle)]
pub extern "C" fn pz_replace_lap(
    recorded: &[u8],
    fitted: &[u8],
    lap: usize,
    kinds: &[u8],
    nums: &[f64],
    tolerance: f64,
    out: &mut [u8],
    count: &mut usize,
) -> u32
    ensures { Listed (λ (bytes : List ℕ). bytes) (replace_lap recorded.now fitted.now lap kinds.now nums.now tolerance (length out.old)) out.old out.new count.old count.new result }
{
    hand_cause(
        lap_replace::replace::replace_lap(recorded, fitted, lap, kinds, nums, tolerance, out),
        count,
    )
}
