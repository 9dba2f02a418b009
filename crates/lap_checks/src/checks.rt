// Whether a lap may be replaced: the rows that a replacement, its asking and its commit share.
ghost use Rattle.std.specs.Prelude.{◌≡◌, ◌&&◌, [], ◌∷◌, ◌+◌, ◌≤◌, length, IfOk};
ghost use Rattle.geo.specs.Outcome.{row, refusal};
ghost use Rattle.geo.specs.Refusal.{refused_by};
ghost use Rattle.course.specs.Course.{lent_course};
ghost use Rattle.chain.specs.Chains.{cap};
ghost use Rattle.laps.specs.File.{lap_count, laps_of, command_count};
ghost use Rattle.lap_swap.specs.Swap.{swap_both, next_lacks, most_both};
ghost use Rattle.lap_checks.specs.Checks.{lent_whole, move_placed, lent_formed, lent_new, row1, row2, row3, row4, row5, row7, table_rows, later_rows, new_rows};

use geo::domain::is_tolerance;
use geo::lists::Commands;
use geo::refusal::Refusal;
use lap_swap::swap::{most_new, with_others};
use laps::lap_file::{Headed, LapFile, MOST_COMMANDS, check_commands, is_placed, too_short};

// The bytes of a recorded file and of its fitted file, as they are lent: any bytes.
#[derive(Clone, Copy)]
pub struct LentFiles<'a> {
    pub recorded: &'a [u8],
    pub fitted: &'a [u8],
}

// A recorded file and its fitted file, both with a right table.
#[derive(Clone, Copy)]
pub struct Files<'a> {
    pub recorded: LapFile<'a>,
    pub fitted: LapFile<'a>,
}

// Rows 1 to 3 of two files, and of a new lap, whole commands and few or not.
// What is told of the new lap comes as single truths, here and below: each row asks for one, and a commit finds its own by other tests.
#[tactic(auto, unfolding(crate::specs::Checks::row1))]
fn fails_1(lent: LentFiles, whole: bool) -> bool
    ensures { result ≡ row1 lent.entry.recorded.now lent.entry.fitted.now whole }
{
    too_short(lent.recorded) || too_short(lent.fitted) || !whole
}

// Two heads, here and below: a type of both would be made for these two rows alone, between the bytes and the files.
#[tactic(auto, unfolding(crate::specs::Checks::row2))]
fn fails_2(s: Headed, f: Headed, few: bool) -> bool
    ensures { result ≡ row2 s.entry.bytes.now f.entry.bytes.now few }
{
    s.is_too_big() || f.is_too_big() || !few
}

#[tactic(auto, unfolding(crate::specs::Checks::row3))]
fn fails_3(s: Headed, f: Headed) -> bool
    requires { (lap_count s.bytes.now ≤ 64) × (lap_count f.bytes.now ≤ 64) }
    ensures { result ≡ row3 s.entry.bytes.now f.entry.bytes.now }
{
    !s.has_table() || !f.has_table() || s.lap_count() != f.lap_count()
}

// The first of these rows that they fall under, or the files.
pub fn check_tables<'a>(lent: LentFiles<'a>, whole: bool, few: bool) -> Result<Files<'a>, Refusal>
    ensures row { refused_by result ≡ refusal (table_rows lent.entry.recorded.now lent.entry.fitted.now whole few) }
    ensures same { IfOk result (λ files. (files.recorded.bytes.now ≡ lent.entry.recorded.now) × (files.fitted.bytes.now ≡ lent.entry.fitted.now)) }
{
    let s = lent.recorded;
    let f = lent.fitted;
    if fails_1(lent, whole) {
        return Err(Refusal::NotWhole);
    }
    let recorded = Headed { bytes: s };
    let fitted = Headed { bytes: f };
    if fails_2(recorded, fitted, few) {
        return Err(Refusal::TooMany);
    }
    if fails_3(recorded, fitted) {
        return Err(Refusal::BadFile);
    }
    Ok(Files {
        recorded: LapFile { bytes: s },
        fitted: LapFile { bytes: f },
    })
}

// Whether there are nine numbers for each lent command. Until that is known, kinds and numbers are no `Commands`.
fn is_whole(kinds: &[u8], nums: &[f64]) -> bool
    ensures { result ≡ lent_whole kinds.now nums.now }
{
    let size = nums.len();
    size % 9 == 0 && size / 9 == kinds.len()
}

// Whether the kinds, bytes as C lends them, have one Move, which is 0, as the first; or none, where they need not have one.
fn moves_placed(must: bool, kinds: &[u8]) -> bool
    requires { 1 ≤ length kinds.now }
    ensures { result ≡ move_placed must kinds.now }
{
    let moved = must || kinds[0] == 0;
    (0..kinds.len()).all(|i| is_placed(i == 0 && moved, kinds[i]))
}

// Whether lent commands are a lap, which must have its Move or may lack it.
#[tactic(auto, unfolding(crate::specs::Checks::lent_formed))]
fn is_lap(must: bool, commands: Commands) -> bool
    ensures { result ≡ lent_formed must commands.entry.kinds.now commands.entry.nums.now }
{
    commands.kinds.len() != 0 && moves_placed(must, commands.kinds) && commands.are_formed()
}

// The first of the rows 4 and 5 that the recorded file and a new lap, formed and in the domain or not, fall under. The file is read once where
// it passes both, as nearly every one does.
fn check_forms(file: LapFile, formed: bool, near: bool) -> Result<(), Refusal>
    ensures { refused_by result ≡ refusal (row 4 (row4 file.entry.bytes.now formed) ∷ row 5 (row5 file.entry.bytes.now near) ∷ []) }
{
    if !formed {
        return Err(Refusal::BadCommand);
    }
    check_commands(file)?;
    if near {
        Ok(())
    } else {
        Err(Refusal::BadNumber)
    }
}

// Row 7: the number of the lap.
#[tactic(auto, unfolding(crate::specs::Checks::row7))]
fn fails_7(k: usize, file: LapFile) -> bool
    ensures { result ≡ row7 k file.entry.bytes.now }
{
    k == 0 || file.lap_count() < k
}

// The first of the rows 4 to 7 that they fall under.
// The number of the lap may be any, so it is no part of the file: row 7 tells whether the file has it.
pub fn check_laps(
    file: LapFile,
    k: usize,
    formed: bool,
    near: bool,
    tolerance: f64,
) -> Result<(), Refusal>
    ensures { refused_by result ≡ refusal (later_rows file.entry.bytes.now k formed near tolerance) }
{
    check_forms(file, formed, near)?;
    if !is_tolerance(tolerance) {
        return Err(Refusal::BadTolerance);
    }
    if fails_7(k, file) {
        return Err(Refusal::NoSuch);
    }
    Ok(())
}

// What a replacement, or its asking, is given: the files, the number of the lap, its new commands and the tolerance, as they are lent.
#[derive(Clone, Copy)]
pub struct Replacement<'a> {
    pub files: LentFiles<'a>,
    pub lap: usize,
    pub kinds: &'a [u8],
    pub nums: &'a [f64],
    pub tolerance: f64,
}

// What is found of a replacement, or of its asking, that passes the rows 1 to 7: what the laps that are fitted again could become at most, 801
// for all above 800, and with them the commands in all other laps. Both are numbers, since the rows of sizes add and compare them.
#[derive(Clone, Copy)]
pub struct Found<'a> {
    pub files: Files<'a>,
    pub commands: Commands<'a>,
    pub own: usize,
    pub all: usize,
}

// Looks at the new commands for a lap: at every row but those of sizes, and at the counts that these ask for.
pub fn look_at_new<'a>(given: Replacement<'a>) -> Result<Found<'a>, Refusal>
    ensures row { refused_by result ≡ refusal (new_rows given.entry.files.recorded.now given.entry.files.fitted.now given.entry.lap (lent_new given.entry.tolerance (laps_of given.entry.files.recorded.now) given.entry.lap given.entry.kinds.now given.entry.nums.now) given.entry.tolerance) }
    ensures counts { IfOk result (λ found. (found.own ≡ cap (most_both given.entry.tolerance (laps_of given.entry.files.recorded.now) given.entry.lap (lent_course given.entry.kinds.now given.entry.nums.now))) × (found.all ≡ found.own + command_count (swap_both (next_lacks given.entry.lap (laps_of given.entry.files.recorded.now)) given.entry.lap [] [] (laps_of given.entry.files.fitted.now)))) }
    ensures same { IfOk result (λ found. (found.files.recorded.bytes.now ≡ given.entry.files.recorded.now) × (found.files.fitted.bytes.now ≡ given.entry.files.fitted.now) × (found.commands.kinds.now ≡ given.entry.kinds.now) × (found.commands.nums.now ≡ given.entry.nums.now)) }
{
    let whole = is_whole(given.kinds, given.nums);
    let files = check_tables(given.files, whole, given.kinds.len() <= MOST_COMMANDS)?;
    let commands = Commands {
        kinds: given.kinds,
        nums: given.nums,
    };
    let k = given.lap;
    let tolerance = given.tolerance;
    let formed = is_lap(k <= 1, commands);
    check_laps(files.recorded, k, formed, commands.are_in(), tolerance)?;
    let own = most_new(files.recorded, k, commands, tolerance);
    let all = with_others(files.recorded, files.fitted, k, own);
    Ok(Found {
        files,
        commands,
        own,
        all,
    })
}
