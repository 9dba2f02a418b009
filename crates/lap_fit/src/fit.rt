// The fit of a lap file: each lap by one rule, under a new table.
ghost use Rattle.std.specs.Prelude.{◌≡◌, List, ◌++◌, ℕ, ◌+◌, ◌*◌, ◌<◌, ◌≤◌, length, take, drop, replicate, IfOk};
ghost use Rattle.floats.specs.Ops.{+0};
ghost use Rattle.geo.specs.Domain.{most_commands};
ghost use Rattle.geo.specs.Outcome.{refusal};
ghost use Rattle.geo.specs.Refusal.{refused_by};
ghost use Rattle.geo.specs.Wrote.{Wrote};
ghost use Rattle.file.specs.Command.{commands_at, decoded};
ghost use Rattle.chain.specs.Joins.{joined};
ghost use Rattle.chain.specs.Chains.{cap, chain_numbers};
ghost use Rattle.course.specs.Course.{most_on, lent_course};
ghost use Rattle.course.specs.Walks.{weight_of};
ghost use Rattle.laps.specs.File.{lap_count, laps_of, encode, PutLap};
ghost use Rattle.laps.specs.Rows.{file_size};
ghost use Rattle.geo.specs.Lent.{origin};
ghost use Rattle.lap_fit.specs.Fit.{lap_end, fit_lap, fit_laps, most_lap, laps_most, fit_new, file_fit_rows, fit_file_by, fit_file, hill_file};

use chain::chain::Walk;
use course::course::{add_capped, course_most, fit_course, weight};
use file::command::{Body, COMMAND_BYTES, read_commands, write_commands};
use geo::domain::is_tolerance;
use geo::lists::Commands;
use geo::refusal::Refusal;
use geo::types::Point3D;
use laps::lap_file::{BEZIER, LapFile, check_file, check_sizes, put_entry, put_head};
use pieces::pieces::Rule;
use ranges::ranges::FitRule;

// So many commands or fewer are few.
pub const FEW: usize = 256;
// The numbers of few commands, nine a command.
const FEW_NUMBERS: usize = 9 * FEW;

// The arrays that a fit works in: its chain, and its commands.
#[derive(Drop)]
pub struct FitRoom {
    pub chain: [f64; Walk::CHAIN],
    pub kinds: [u8; Walk::MOST],
    pub nums: [f64; Walk::NUMBERS],
}

impl FitRoom {
    fn new() -> Self
        ensures { (result.chain ≡ replicate chain_numbers +0) × (result.kinds ≡ replicate most_commands 0) × (result.nums ≡ replicate (9 * most_commands) +0) }
    {
        Self {
            chain: [0.0; Walk::CHAIN],
            kinds: [0; Walk::MOST],
            nums: [0.0; Walk::NUMBERS],
        }
    }
}

// The same, and those for the commands of a lap: filled once, and lent for each lap.
#[derive(Drop)]
pub struct LapRoom {
    pub kinds: [u8; Walk::MOST],
    pub nums: [f64; Walk::NUMBERS],
    pub fit: FitRoom,
}

impl LapRoom {
    // All numbers 0.
    pub fn new() -> Self
        ensures own { (result.kinds ≡ replicate most_commands 0) × (result.nums ≡ replicate (9 * most_commands) +0) }
        ensures fit { (result.fit.chain ≡ replicate chain_numbers +0) × (result.fit.kinds ≡ replicate most_commands 0) × (result.fit.nums ≡ replicate (9 * most_commands) +0) }
    {
        Self {
            kinds: [0; Walk::MOST],
            nums: [0.0; Walk::NUMBERS],
            fit: FitRoom::new(),
        }
    }
}

// A lap with its start, the end of the recorded lap before it.
#[derive(Clone, Copy)]
pub struct StartedLap<'a> {
    pub body: Body<'a>,
    pub start: Point3D,
    ghost few: { body.count ≤ most_commands },
}

// Where a lap ends: with its last command, of whatever kind.
// The body and the start are parameters and no started lap: a body of any count has an end.
pub fn lap_end(lap: Body, start: Point3D) -> Point3D
    ensures { result ≡ lap_end start (commands_at lap.entry.bytes.now lap.entry.at lap.entry.count) }
{
    if lap.count == 0 {
        return start;
    }
    lap.command(lap.count - 1).read().end_point()
}

// What command i of a lap adds to the most. Only a Bezier asks where the command before it ended, so of any other just the kind is read, a byte
// of the file and no command yet.
fn weight_at(lap: StartedLap, i: usize, tolerance: f64) -> usize
    requires { i < lap.body.count }
    ensures { result ≡ cap (weight_of (joined tolerance (lap_end lap.entry.start (commands_at lap.entry.body.bytes.now lap.entry.body.at i)) (decoded (take 73 (drop (lap.entry.body.at + 73 * i) lap.entry.body.bytes.now))))) }
{
    let c = lap.body.command(i);
    if c.bytes[0] < BEZIER {
        return 1;
    }
    let last = lap_end(lap.body.front(i), lap.start);
    weight(c.read(), last, tolerance)
}

// What the commands of a lap, from their start, could become at most, 801 for all above 800, here and below, as `bezier_steps` of chain counts.
// A `for`: of a `fold` it would have to be shown that each sum on the way is one that `add_capped` takes, which is the loop's invariant again.
pub fn most_lap(lap: StartedLap, tolerance: f64) -> usize
    ensures { result ≡ cap (most_lap tolerance lap.entry.start (commands_at lap.entry.body.bytes.now lap.entry.body.at lap.entry.body.count)) }
{
    let mut most = 0;
    for i in 0..lap.body.count {
        most = add_capped(most, weight_at(lap, i, tolerance));
    }
    most
}

// What the laps of a file could become at most. A `for`, since a `fold` would carry the next lap's start besides.
pub fn most_of(file: LapFile, tolerance: f64) -> usize
    ensures { result ≡ cap (laps_most tolerance origin (laps_of file.entry.bytes.now)) }
{
    let l = file.lap_count();
    let mut most = 0;
    let mut start = Point3D::ZERO;
    for j in 0..l {
        let body = file.lap(j);
        most = add_capped(most, most_lap(StartedLap { body, start }, tolerance));
        start = lap_end(body, start);
    }
    most
}

// Writes the fit of lent commands, from their start, from `to` on, and returns how many commands it has.
// The rule, the output and the place stay parameters, here and below: one rule is for all laps of a file and each has its own start, and the
// place stands in the file's table besides. The arrays are lent one by one, as few commands have smaller ones: a `FitRoom` of any lengths would ask
// of each caller that a type so long has a size.
fn fit_lent(
    commands: Commands,
    start: Point3D,
    rule: FitRule,
    chain: &mut [f64; Walk::CHAIN],
    kinds: &mut [u8],
    nums: &mut [f64],
    out: &mut [u8],
    to: usize,
) -> usize
    requires { (most_on rule.rule.tolerance start (lent_course commands.kinds.now commands.nums.now) ≤ most_commands) × (most_on rule.rule.tolerance start (lent_course commands.kinds.now commands.nums.now) ≤ length kinds.old) × (9 * most_on rule.rule.tolerance start (lent_course commands.kinds.now commands.nums.now) ≤ length nums.old) × (to + 73 * length (fit_new rule.rule start commands.kinds.now commands.nums.now) ≤ length out.old) }
    // What the arrays hold at exit is left open.
    ensures { PutLap (fit_new rule.rule start commands.entry.kinds.now commands.entry.nums.now) out.old out.new to result }
{
    let n = fit_course(commands, start, rule, chain, kinds, nums);
    let m = 9 * n;
    let fit = Commands {
        kinds: &kinds[..n],
        nums: &nums[..m],
    };
    write_commands(fit, out, to);
    n
}

// The fit of few commands, in small arrays, which are filled sooner than large ones.
fn fit_few(commands: Commands, start: Point3D, rule: FitRule, out: &mut [u8], to: usize) -> usize
    requires { (most_on rule.rule.tolerance start (lent_course commands.kinds.now commands.nums.now) ≤ 256) × (to + 73 * length (fit_new rule.rule start commands.kinds.now commands.nums.now) ≤ length out.old) }
    ensures { PutLap (fit_new rule.rule start commands.entry.kinds.now commands.entry.nums.now) out.old out.new to result }
{
    let mut chain = [0.0; Walk::CHAIN];
    let mut kinds = [0u8; FEW];
    let mut nums = [0.0; FEW_NUMBERS];
    fit_lent(
        commands, start, rule, &mut chain, &mut kinds, &mut nums, out, to,
    )
}

// The fit of any commands.
fn fit_many(commands: Commands, start: Point3D, rule: FitRule, out: &mut [u8], to: usize) -> usize
    requires { (most_on rule.rule.tolerance start (lent_course commands.kinds.now commands.nums.now) ≤ 800) × (to + 73 * length (fit_new rule.rule start commands.kinds.now commands.nums.now) ≤ length out.old) }
    ensures { PutLap (fit_new rule.rule start commands.entry.kinds.now commands.entry.nums.now) out.old out.new to result }
{
    let mut room = FitRoom::new();
    fit_lent(
        commands,
        start,
        rule,
        &mut room.chain,
        &mut room.kinds,
        &mut room.nums,
        out,
        to,
    )
}

// Writes the fit of lent commands, from their start, from `to` on, and returns how many commands it has. By what they could become at most the
// arrays are chosen.
#[tactic(auto, using(chain::proofs::Count::cap_passed))]
pub fn fit_commands(
    commands: Commands,
    start: Point3D,
    rule: FitRule,
    out: &mut [u8],
    to: usize,
) -> usize
    requires { (most_on rule.rule.tolerance start (lent_course commands.kinds.now commands.nums.now) ≤ 800) × (to + 73 * length (fit_new rule.rule start commands.kinds.now commands.nums.now) ≤ length out.old) }
    ensures { PutLap (fit_new rule.rule start commands.entry.kinds.now commands.entry.nums.now) out.old out.new to result }
{
    if course_most(commands, start, rule.rule.tolerance) <= FEW {
        return fit_few(commands, start, rule, out, to);
    }
    fit_many(commands, start, rule, out, to)
}

// Writes the fit of a lap with its start, from `to` on, and returns how many commands it has.
// That its most is small is a clause: it depends on the rule, and a `StartedLap` is what is counted before that is known.
pub fn fit_lap(
    lap: StartedLap,
    rule: FitRule,
    room: &mut LapRoom,
    out: &mut [u8],
    to: usize,
) -> usize
    requires { (most_lap rule.rule.tolerance lap.start (commands_at lap.body.bytes.now lap.body.at lap.body.count) ≤ most_commands) × (to + 73 * length (fit_lap rule.rule lap.start (commands_at lap.body.bytes.now lap.body.at lap.body.count)) ≤ length out.old) }
    ensures { PutLap (fit_lap rule.rule lap.entry.start (commands_at lap.entry.body.bytes.now lap.entry.body.at lap.entry.body.count)) out.old out.new to result }
{
    read_commands(lap.body, &mut room.kinds, &mut room.nums);
    let n = lap.body.count;
    let m = 9 * n;
    let read = Commands {
        kinds: &room.kinds[..n],
        nums: &room.nums[..m],
    };
    fit_lent(
        read,
        lap.start,
        rule,
        &mut room.fit.chain,
        &mut room.fit.kinds,
        &mut room.fit.nums,
        out,
        to,
    )
}

// Writes the fit of a file, the mark first, and returns how many bytes it has. A `for`, since a `fold` would carry the place and the next lap's start.
fn fit_laps(file: LapFile, rule: FitRule, out: &mut [u8]) -> usize
    requires { (laps_most rule.rule.tolerance origin (laps_of file.bytes.now) ≤ 800) × (file_size (lap_count file.bytes.now) (laps_most rule.rule.tolerance origin (laps_of file.bytes.now)) ≤ length out.old) }
    ensures { (result ≡ length (encode (fit_laps rule.rule origin (laps_of file.entry.bytes.now)))) × (out.new ≡ encode (fit_laps rule.rule origin (laps_of file.entry.bytes.now)) ++ drop (length (encode (fit_laps rule.rule origin (laps_of file.entry.bytes.now)))) out.old) }
{
    let mut room = LapRoom::new();
    let l = file.lap_count();
    put_head(out, l);
    let mut to = 8 + 8 * l;
    let mut start = Point3D::ZERO;
    for j in 0..l {
        let body = file.lap(j);
        let n = fit_lap(StartedLap { body, start }, rule, &mut room, out, to);
        put_entry(out, j, to, n);
        start = lap_end(body, start);
        to += COMMAND_BYTES * n;
    }
    to
}

// The first row that the fit of a file falls under, or the file, whose table is right.
// The tolerance and the room go nowhere together: each is looked at by rows of its own.
fn check_fit<'a>(s: &'a [u8], tolerance: f64, room: usize) -> Result<LapFile<'a>, Refusal>
    ensures row { refused_by result ≡ refusal (file_fit_rows s.now tolerance room) }
    ensures same { IfOk result (λ file. file.bytes.now ≡ s.now) }
{
    let file = check_file(s)?;
    if !is_tolerance(tolerance) {
        return Err(Refusal::BadTolerance);
    }
    check_sizes(file.lap_count(), most_of(file, tolerance), room)?;
    Ok(file)
}

// Fits each lap of a recorded file by a rule, and writes the fitted file to the front of out. A refusal changes nothing.
fn fit_by(rule: Rule, recorded: &[u8], out: &mut [u8]) -> Result<usize, Refusal>
    ensures { Wrote (λ (bytes : List ℕ). bytes) (fit_file_by rule recorded.now (length out.old)) out.old out.new result }
{
    let file = check_fit(recorded, rule.tolerance, out.len())?;
    Ok(fit_laps(file, FitRule { rule }, out))
}

// The fit of a file: as `fit_arcs` fits each lap.
// Its parameters, as those of `fit_hills`, are those of C's call; from the check on there is a file.
pub fn fit_file(recorded: &[u8], tolerance: f64, out: &mut [u8]) -> Result<usize, Refusal>
    ensures { Wrote (λ (bytes : List ℕ). bytes) (fit_file recorded.now tolerance (length out.old)) out.old out.new result }
{
    fit_by(Rule::of_laps(tolerance), recorded, out)
}

// The fit of a file for hills: straights alone, by the distance in x, y and z; recorded Arcs stay.
pub fn fit_hills(recorded: &[u8], tolerance: f64, out: &mut [u8]) -> Result<usize, Refusal>
    ensures { Wrote (λ (bytes : List ℕ). bytes) (hill_file recorded.now tolerance (length out.old)) out.old out.new result }
{
    fit_by(Rule::of_hills(tolerance), recorded, out)
}
