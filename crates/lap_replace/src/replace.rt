// The replacement of one lap of a fitted file.
ghost use Rattle.std.specs.Prelude.{◌≡◌, List, ◌++◌, ℕ, ◌*◌, ◌<◌, ◌≤◌, length, drop, IfOk};
ghost use Rattle.geo.specs.Outcome.{refusal};
ghost use Rattle.geo.specs.Refusal.{refused_by};
ghost use Rattle.geo.specs.Wrote.{Wrote};
ghost use Rattle.course.specs.Course.{lent_course};
ghost use Rattle.chain.specs.Chains.{cap};
ghost use Rattle.laps.specs.File.{lap_count, laps_of, encode};
ghost use Rattle.laps.specs.Rows.{file_size};
ghost use Rattle.lap_swap.specs.Swap.{most_both, replaced_laps};
ghost use Rattle.lap_checks.specs.Checks.{lent_new, most_with, replace_rows};
ghost use Rattle.lap_replace.specs.Replace.{replace_lap};

use file::command::COMMAND_BYTES;
use geo::refusal::Refusal;
use lap_checks::checks::{Found, LentFiles, Replacement, look_at_new};
use lap_fit::fit::FEW;
use lap_swap::swap::{Part, fit_both, put_part};
use laps::lap_file::check_sizes;
use pieces::pieces::Rule;
use ranges::ranges::FitRule;

// The body of 800 commands.
const BODY_BYTES: usize = 58400;
// The body of few commands.
const FEW_BYTES: usize = COMMAND_BYTES * FEW;

// Fits the laps that are fitted again into a buffer of its own, of `BYTES` bytes; then writes the fitted file with them.
// Rule and output are no pair: `put_part` takes the output alone.
fn replace_laps<const BYTES: usize>(found: Found, k: usize, rule: FitRule, out: &mut [u8]) -> usize
    requires { (1 ≤ k) × (k ≤ lap_count found.files.recorded.bytes.now) × (most_with (lent_new rule.rule.tolerance (laps_of found.files.recorded.bytes.now) k found.commands.kinds.now found.commands.nums.now) k found.files.recorded.bytes.now found.files.fitted.bytes.now ≤ 800) × (file_size (lap_count found.files.fitted.bytes.now) (most_with (lent_new rule.rule.tolerance (laps_of found.files.recorded.bytes.now) k found.commands.kinds.now found.commands.nums.now) k found.files.recorded.bytes.now found.files.fitted.bytes.now) ≤ length out.old) × (found.own ≡ most_both rule.rule.tolerance (laps_of found.files.recorded.bytes.now) k (lent_course found.commands.kinds.now found.commands.nums.now)) × (73 * found.own ≤ BYTES) × (BYTES < 9223372036854775808) }
    ensures { (result ≡ length (encode (replaced_laps rule.rule k found.entry.commands.kinds.now found.entry.commands.nums.now (laps_of found.entry.files.recorded.bytes.now) (laps_of found.entry.files.fitted.bytes.now)))) × (out.new ≡ encode (replaced_laps rule.rule k found.entry.commands.kinds.now found.entry.commands.nums.now (laps_of found.entry.files.recorded.bytes.now) (laps_of found.entry.files.fitted.bytes.now)) ++ drop (length (encode (replaced_laps rule.rule k found.entry.commands.kinds.now found.entry.commands.nums.now (laps_of found.entry.files.recorded.bytes.now) (laps_of found.entry.files.fitted.bytes.now)))) out.old) }
{
    let files = found.files;
    let mut buffer = [0u8; BYTES];
    let fit = fit_both(files.recorded, k, found.commands, rule, &mut buffer);
    let part = Part {
        bytes: &buffer,
        count: fit.count,
        next: fit.next,
    };
    put_part(files.recorded, files.fitted, k, part, out)
}

// The first row that a replacement falls under, or what is found of it.
fn check_replacement<'a>(given: Replacement<'a>, room: usize) -> Result<Found<'a>, Refusal>
    ensures row { refused_by result ≡ refusal (replace_rows given.entry.files.recorded.now given.entry.files.fitted.now given.entry.lap (lent_new given.entry.tolerance (laps_of given.entry.files.recorded.now) given.entry.lap given.entry.kinds.now given.entry.nums.now) given.entry.tolerance room) }
    ensures same { IfOk result (λ found. (found.files.recorded.bytes.now ≡ given.entry.files.recorded.now) × (found.files.fitted.bytes.now ≡ given.entry.files.fitted.now) × (found.commands.kinds.now ≡ given.entry.kinds.now) × (found.commands.nums.now ≡ given.entry.nums.now)) }
    ensures own { IfOk result (λ found. found.own ≡ cap (most_both given.entry.tolerance (laps_of given.entry.files.recorded.now) given.entry.lap (lent_course given.entry.kinds.now given.entry.nums.now))) }
{
    let found = look_at_new(given)?;
    check_sizes(found.files.fitted.lap_count(), found.all, room)?;
    Ok(found)
}

// Writes the fitted file with lap number `lap` replaced by the fit of the new commands, and the next lap fitted again where it
// lacks its Move, to the front of out. A refusal changes nothing.
// The parameters are those of C's call; from the check on there are files and commands.
pub fn replace_lap(
    recorded: &[u8],
    fitted: &[u8],
    lap: usize,
    kinds: &[u8],
    nums: &[f64],
    tolerance: f64,
    out: &mut [u8],
) -> Result<usize, Refusal>
    ensures { Wrote (λ (bytes : List ℕ). bytes) (replace_lap recorded.now fitted.now lap kinds.now nums.now tolerance (length out.old)) out.old out.new result }
{
    let given = Replacement {
        files: LentFiles { recorded, fitted },
        lap,
        kinds,
        nums,
        tolerance,
    };
    let found = check_replacement(given, out.len())?;
    let rule = FitRule {
        rule: Rule::of_laps(tolerance),
    };
    // Few commands have a small buffer, which is filled sooner than a large one.
    if found.own <= FEW {
        return Ok(replace_laps::<FEW_BYTES>(found, lap, rule, out));
    }
    Ok(replace_laps::<BODY_BYTES>(found, lap, rule, out))
}
