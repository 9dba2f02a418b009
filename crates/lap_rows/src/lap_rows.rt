// The listing of a recorded file as text: a line for each row of `listing`, for the commands of each lap.
ghost use Rattle.std.specs.Prelude.{◌≡◌, true, List, ◌++◌, ℕ, ◌+◌, ◌*◌, ◌<◌, ◌≤◌, length, drop, IfOk};
ghost use Rattle.floats.specs.Ops.{◌≺◌, +0};
ghost use Rattle.geo.specs.Lent.{origin};
ghost use Rattle.geo.specs.Domain.{most_commands};
ghost use Rattle.geo.specs.Outcome.{refusal};
ghost use Rattle.geo.specs.Refusal.{refused_by};
ghost use Rattle.geo.specs.Wrote.{Wrote};
ghost use Rattle.file.specs.Command.{commands_at};
ghost use Rattle.listing.specs.Placed.{RowsPlaced};
ghost use Rattle.laps.specs.File.{lap_count, laps_of};
ghost use Rattle.lap_fit.specs.Fit.{most_lap, laps_most};
ghost use Rattle.lap_rows.specs.Listing.{lap_rows, lap_text, lap_steps, list_text, most_text, text_rows, list_file};
ghost use Rattle.lap_text.specs.Left.{TextPut};

use chain::chain::Walk;
use course::course::fit_course_with_steps;
use file::command::read_commands;
use geo::domain::is_tolerance;
use geo::lists::Commands;
use geo::refusal::Refusal;
use geo::types::Point3D;
use lap_fit::fit::{LapRoom, StartedLap, lap_end, most_of};
use lap_text::bytes;
use lap_text::text::{Added, put_rows, put_total};
use laps::lap_file::{LapFile, check_file};
use pieces::pieces::Rule;
use ranges::ranges::FitRule;

// The arrays that a listing works in: those of a fit, and one for the steps that each command of it covers.
#[derive(Drop)]
struct ListRoom {
    lap: LapRoom,
    steps: [u32; Walk::MOST],
}

impl ListRoom {
    fn new() -> Self {
        Self {
            lap: LapRoom::new(),
            steps: [0; Walk::MOST],
        }
    }
}

// Lists the commands of a lap with its start, and answers how many rows they have: they are fitted, and beside each command stands
// how many steps it covers.
// That the tolerance is above zero stays a clause, here and below, and no `FitRule` stands in its place: the rows are defined for the rule of laps
// alone, so that its being that one would be a clause. That the most is small is one too: it depends on the tolerance, which no lap has.
fn list_commands(lap: StartedLap, tolerance: f64, room: &mut ListRoom) -> usize
    requires { ((+0 ≺ tolerance) ≡ true) × (most_lap tolerance lap.start (commands_at lap.body.bytes.now lap.body.at lap.body.count) ≤ most_commands) }
    // What the other arrays hold at exit is left open.
    // An array two structs deep does not tell its length by itself.
    ensures long { length room.new.lap.fit.kinds ≡ most_commands }
    ensures rows { RowsPlaced (lap_rows tolerance lap.entry.start (commands_at lap.entry.body.bytes.now lap.entry.body.at lap.entry.body.count)) result room.old.lap.fit.kinds room.new.lap.fit.kinds room.old.steps room.new.steps }
{
    read_commands(lap.body, &mut room.lap.kinds, &mut room.lap.nums);
    let n = lap.body.count;
    let m = 9 * n;
    let rule = FitRule {
        rule: Rule::of_laps(tolerance),
    };
    let read = Commands {
        kinds: &room.lap.kinds[..n],
        nums: &room.lap.nums[..m],
    };
    fit_course_with_steps(
        read,
        lap.start,
        rule,
        &mut room.lap.fit.chain,
        &mut room.lap.fit.kinds,
        &mut room.lap.fit.nums,
        &mut room.steps,
    )
}

// Writes the text of one lap, of this number and with its start, from `to` on. The output is lent whole with the place, as in `put_rows`, and
// that the number has two digits is a clause, as there.
fn put_lap(
    lap: StartedLap,
    number: usize,
    tolerance: f64,
    room: &mut ListRoom,
    out: &mut [u8],
    to: usize,
) -> Added
    requires { ((+0 ≺ tolerance) ≡ true) × (number < 100) × (most_lap tolerance lap.start (commands_at lap.body.bytes.now lap.body.at lap.body.count) ≤ most_commands) × (to + 9 * most_lap tolerance lap.start (commands_at lap.body.bytes.now lap.body.at lap.body.count) ≤ length out.old) }
    ensures text { TextPut (lap_text tolerance number lap.entry.start (commands_at lap.entry.body.bytes.now lap.entry.body.at lap.entry.body.count)) out.old out.new to result.end }
    ensures sum { result.steps ≡ lap_steps tolerance lap.entry.start (commands_at lap.entry.body.bytes.now lap.entry.body.at lap.entry.body.count) }
{
    let n = list_commands(lap, tolerance, room);
    put_rows(&room.lap.fit.kinds[..n], &room.steps[..n], number, out, to)
}

// Writes the listing's text, which is its first line, the rows of each lap and the sum of their steps, and answers how many
// bytes it has. That a file has few laps is a clause: a `LapFile` has a table of any length, and this is the one function here that needs it short.
// A `for`, since a `fold` would carry the place, the sum and the next lap's start.
fn list_laps(file: LapFile, tolerance: f64, out: &mut [u8]) -> usize
    requires { ((+0 ≺ tolerance) ≡ true) × (lap_count file.bytes.now ≤ 64) × (laps_most tolerance origin (laps_of file.bytes.now) ≤ most_commands) × (most_text (laps_most tolerance origin (laps_of file.bytes.now)) ≤ length out.old) }
    ensures { (result ≡ length (list_text tolerance (laps_of file.entry.bytes.now))) × (out.new ≡ list_text tolerance (laps_of file.entry.bytes.now) ++ drop (length (list_text tolerance (laps_of file.entry.bytes.now))) out.old) }
{
    let mut room = ListRoom::new();
    let mut to = bytes::copy(b"lap,kind,steps\n", out);
    let mut total = 0;
    let mut start = Point3D::ZERO;
    for j in 0..file.lap_count() {
        let body = file.lap(j);
        let lap = StartedLap { body, start };
        let added = put_lap(lap, j + 1, tolerance, &mut room, out, to);
        to = added.end;
        total += added.steps;
        start = lap_end(body, start);
    }
    put_total(out, to, total)
}

// The first row that the listing of a file falls under, or the file, whose table is right.
// The tolerance and the room go nowhere together: each is looked at by rows of its own. Up to the tolerance the rows are those of `fit_file`; behind
// it they are another table's, which has no row for the size of a fitted file.
fn check_text<'a>(s: &'a [u8], tolerance: f64, room: usize) -> Result<LapFile<'a>, Refusal>
    ensures row { refused_by result ≡ refusal (text_rows s.now tolerance room) }
    ensures same { IfOk result (λ file. file.bytes.now ≡ s.now) }
{
    let file = check_file(s)?;
    if !is_tolerance(tolerance) {
        return Err(Refusal::BadTolerance);
    }
    let most = most_of(file, tolerance);
    if Walk::MOST < most {
        return Err(Refusal::TooMuch);
    }
    // the first line, nine bytes for each row, the last line
    if room < 15 + 9 * most + 10 {
        return Err(Refusal::NoRoom);
    }
    Ok(file)
}

// Lists the fit of a recorded file: writes the listing's text to the front of out. A refusal changes nothing.
// The parameters are as those of `fit_file`, which are C's; from the check on there is a file.
pub fn list_file(recorded: &[u8], tolerance: f64, out: &mut [u8]) -> Result<usize, Refusal>
    ensures { Wrote (λ (bytes : List ℕ). bytes) (list_file recorded.now tolerance (length out.old)) out.old out.new result }
{
    let file = check_text(recorded, tolerance, out.len())?;
    Ok(list_laps(file, tolerance, out))
}
