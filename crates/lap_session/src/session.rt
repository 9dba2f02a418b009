// Look first, then store (document 02, §9): an asking fits the laps that a replacement would fit again, into a lent buffer, and gives a
// ticket; a commit takes the ticket and that part of the buffer, and writes the file. Session and ticket are values, and any may be forged.
ghost use Rattle.std.specs.Prelude.{◌≡◌, false, ◌&&◌, ◌+◌, ◌*◌, length, leb, eqb, IfOk};
ghost use Rattle.geo.specs.Outcome.{refusal};
ghost use Rattle.geo.specs.Refusal.{refused_by};
ghost use Rattle.file.specs.Command.{commands_at};
ghost use Rattle.course.specs.Course.{lent_course};
ghost use Rattle.chain.specs.Chains.{cap};
ghost use Rattle.laps.specs.File.{laps_of, lap_ok, lap_tested};
ghost use Rattle.lap_swap.specs.Swap.{most_both};
ghost use Rattle.lap_checks.specs.Checks.{lent_new, new_rows};
ghost use Rattle.lap_session.specs.Session.{begun, ask_rows, ask_lap, Answers, refits_next, counts_agree, part_new, commit_rows, commit_lap, Commits};

use file::command::COMMAND_BYTES;
use geo::refusal::Refusal;
use lap_checks::checks::{
    Files, Found, LentFiles, Replacement, check_laps, check_tables, look_at_new,
};
use lap_swap::swap::{Part, fit_both, next_of, put_part, with_others};
use laps::lap_file::{
    Finite, Fitted, LapFile, MOST_COMMANDS, Test, check_sizes, commands_pass, lap_passes,
};
use pieces::pieces::Rule;
use ranges::ranges::FitRule;

// A session: how many commits it accepted.
#[derive(Clone, Copy)]
pub struct Session {
    pub edits: u32,
}

// What an asking gives: the lap, the tolerance and the session's edit number, and how many commands the fit of the lap has, and that of
// the next lap, 0 where that is not fitted again, as C's ticket has it.
#[derive(Clone, Copy)]
pub struct Ticket {
    pub lap: usize,
    pub tolerance: f64,
    pub edit: u32,
    pub count: usize,
    pub next: usize,
}

impl Session {
    // A session that stands here takes no commit.
    const MOST: u32 = 1000000;

    // "from 0"
    pub fn start() -> Self
        ensures { result ≡ begun }
    {
        Self { edits: 0 }
    }
}

// The first row that an asking falls under, or what is found of it. Its last row asks for room for the fits alone, and that of
// `check_replacement` for the whole file.
fn check_asking<'a>(given: Replacement<'a>, room: usize) -> Result<Found<'a>, Refusal>
    ensures row { refused_by result ≡ refusal (ask_rows given.entry.files.recorded.now given.entry.files.fitted.now given.entry.lap (lent_new given.entry.tolerance (laps_of given.entry.files.recorded.now) given.entry.lap given.entry.kinds.now given.entry.nums.now) given.entry.tolerance room) }
    ensures same { IfOk result (λ found. (found.files.recorded.bytes.now ≡ given.entry.files.recorded.now) × (found.files.fitted.bytes.now ≡ given.entry.files.fitted.now) × (found.commands.kinds.now ≡ given.entry.kinds.now) × (found.commands.nums.now ≡ given.entry.nums.now)) }
    ensures own { IfOk result (λ found. found.own ≡ cap (most_both given.entry.tolerance (laps_of given.entry.files.recorded.now) given.entry.lap (lent_course given.entry.kinds.now given.entry.nums.now))) }
{
    let found = look_at_new(given)?;
    if MOST_COMMANDS < found.all {
        return Err(Refusal::TooMuch);
    }
    if room < COMMAND_BYTES * found.own {
        return Err(Refusal::NoRoom);
    }
    Ok(found)
}

// Fits lap number `lap` as a replacement by the new commands would, and the next lap where that would be fitted again, to the front of the
// buffer, in the bytes of a file. A refusal changes nothing.
// The parameters are those of C's call; from the check on there are files and commands.
pub fn ask_lap(
    recorded: &[u8],
    fitted: &[u8],
    session: Session,
    lap: usize,
    kinds: &[u8],
    nums: &[f64],
    tolerance: f64,
    buffer: &mut [u8],
) -> Result<Ticket, Refusal>
    ensures { Answers (ask_lap recorded.now fitted.now session lap kinds.now nums.now tolerance (length buffer.old)) buffer.old buffer.new result }
{
    let given = Replacement {
        files: LentFiles { recorded, fitted },
        lap,
        kinds,
        nums,
        tolerance,
    };
    let found = check_asking(given, buffer.len())?;
    let rule = FitRule {
        rule: Rule::of_laps(tolerance),
    };
    let fit = fit_both(found.files.recorded, lap, found.commands, rule, buffer);
    Ok(Ticket {
        lap,
        tolerance,
        edit: session.edits,
        count: fit.count,
        next: fit.next,
    })
}

// Whether the lap behind lap k is fitted again; a lap number outside the file has none behind it.
// The number stays beside the file, here and below, since a ticket may have any.
#[tactic(auto, unfolding(crate::specs::Session::refits_next))]
fn refits_next(file: LapFile, k: usize) -> bool
    ensures { result ≡ refits_next k (laps_of file.entry.bytes.now) }
{
    k != 0 && next_of(file, k).is_some()
}

// Whether n and m add up to `all`. They may be any numbers, so they are not added, here and below, and are no `Part` yet.
fn add_up(all: usize, n: usize, m: usize) -> bool
    ensures { result ≡ eqb (n + m) all }
{
    n <= all && all - n == m
}

// Whether a ticket's counts are those of a part of so many commands: they add up to it, each lap that is fitted again has some, and a lap
// that is not has none.
#[tactic(auto, unfolding(crate::specs::Session::counts_agree))]
fn counts_agree(file: LapFile, k: usize, all: usize, n: usize, m: usize) -> bool
    ensures { result ≡ counts_agree k (laps_of file.entry.bytes.now) all n m }
{
    if !add_up(all, n, m) {
        return false;
    }
    if n == 0 {
        return false;
    }
    if refits_next(file, k) { m != 0 } else { m == 0 }
}

// A test of each command of a part: of lap k's as replacement asks for its Move, and of the next lap's, which has none.
fn part_passes<T: Test>(k: usize, part: Part) -> bool
    ensures { result ≡ lap_tested T.asks (leb k 1) (commands_at part.entry.bytes.now 0 part.entry.count) && lap_ok T.asks false (commands_at part.entry.bytes.now (73 * part.entry.count) part.entry.next) }
{
    lap_passes::<T>(k <= 1, part.first()) && commands_pass::<T>(false, part.second())
}

// What a commit stores that passes its rows: the part, and the files that it goes with.
#[derive(Clone, Copy)]
struct Commit<'a> {
    files: Files<'a>,
    part: Part<'a>,
}

// The first of the rows 1 to 7 that a commit falls under, or what it stores.
fn check_part<'a>(
    lent: LentFiles<'a>,
    ticket: Ticket,
    part: &'a [u8],
) -> Result<Commit<'a>, Refusal>
    ensures row { refused_by result ≡ refusal (new_rows lent.entry.recorded.now lent.entry.fitted.now ticket.lap (part_new ticket (laps_of lent.entry.recorded.now) part.now) ticket.tolerance) }
    ensures same { IfOk result (λ commit. (commit.files.recorded.bytes.now ≡ lent.entry.recorded.now) × (commit.files.fitted.bytes.now ≡ lent.entry.fitted.now) × (commit.part.bytes.now ≡ part.now) × (commit.part.count ≡ ticket.count) × (commit.part.next ≡ ticket.next)) }
{
    let all = part.len() / COMMAND_BYTES;
    let files = check_tables(lent, part.len() % COMMAND_BYTES == 0, all <= MOST_COMMANDS)?;
    let k = ticket.lap;
    if !counts_agree(files.recorded, k, all, ticket.count, ticket.next) {
        return Err(Refusal::BadFile);
    }
    let part = Part {
        bytes: part,
        count: ticket.count,
        next: ticket.next,
    };
    let formed = part_passes::<Fitted>(k, part);
    let finite = part_passes::<Finite>(k, part);
    check_laps(files.recorded, k, formed, finite, ticket.tolerance)?;
    Ok(Commit { files, part })
}

// The first row that a commit falls under, or what it stores.
fn check_commit<'a>(
    ticket: Ticket,
    session: Session,
    lent: LentFiles<'a>,
    part: &'a [u8],
    room: usize,
) -> Result<Commit<'a>, Refusal>
    ensures row { refused_by result ≡ refusal (commit_rows ticket session lent.entry.recorded.now lent.entry.fitted.now part.now room) }
    ensures same { IfOk result (λ commit. (commit.files.recorded.bytes.now ≡ lent.entry.recorded.now) × (commit.files.fitted.bytes.now ≡ lent.entry.fitted.now) × (commit.part.bytes.now ≡ part.now) × (commit.part.count ≡ ticket.count) × (commit.part.next ≡ ticket.next)) }
{
    if ticket.edit != session.edits {
        return Err(Refusal::OldTicket);
    }
    if session.edits >= Session::MOST {
        return Err(Refusal::FullSession);
    }
    let commit = check_part(lent, ticket, part)?;
    let files = commit.files;
    let all = part.len() / COMMAND_BYTES;
    let most = with_others(files.recorded, files.fitted, ticket.lap, all);
    check_sizes(files.fitted.lap_count(), most, room)?;
    Ok(commit)
}

// Writes the fitted file with the part in the place of the laps that were fitted again, as it stands, to the front of out, and raises the
// session's edit number. A refusal changes nothing.
// The parameters are those of C's call; from the check on there are files and a part.
pub fn commit_lap(
    ticket: Ticket,
    session: &mut Session,
    recorded: &[u8],
    fitted: &[u8],
    part: &[u8],
    out: &mut [u8],
) -> Result<usize, Refusal>
    ensures { Commits session.old session.new (commit_lap ticket session.old recorded.now fitted.now part.now (length out.old)) out.old out.new result }
{
    let lent = LentFiles { recorded, fitted };
    let commit = check_commit(ticket, *session, lent, part, out.len())?;
    let files = commit.files;
    session.edits += 1;
    Ok(put_part(files.recorded, files.fitted, ticket.lap, commit.part, out))
}
