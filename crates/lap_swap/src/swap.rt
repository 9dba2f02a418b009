// A fitted file with one lap replaced and, where it lacks its Move, the next one fitted again: where the new commands start, both fits, what
// they could become at most, and the file with them.
ghost use Rattle.std.specs.Prelude.{◌≡◌, ◌&&◌, [], ◌++◌, ◌+◌, ◌*◌, ◌≤◌, eqb, length, drop, if◌then◌else◌, IfSome};
ghost use Rattle.std.specs.Option.{is_some};
ghost use Rattle.file.specs.Command.{commands_at};
ghost use Rattle.course.specs.Course.{lent_course};
ghost use Rattle.chain.specs.Chains.{cap};
ghost use Rattle.laps.specs.File.{lap_count, laps_of, encode, command_count, PutLap};
ghost use Rattle.laps.specs.Rows.{file_size};
ghost use Rattle.lap_fit.specs.Fit.{start_of, fit_lap, most_lap};
ghost use Rattle.lap_swap.specs.Swap.{commands_of, swap_both, next_lacks, next_lap, most_both, new_fit, next_fit, stored_laps, PutBoth};

use course::course::{add_capped, course_end, course_most};
use file::command::{Body, COMMAND_BYTES};
use geo::lists::Commands;
use geo::types::Point3D;
use lap_fit::fit::{LapRoom, StartedLap, fit_commands, fit_lap, lap_end, most_lap};
use laps::lap_file::{LapFile, lacks_move, put_entry, put_head};
use ranges::ranges::FitRule;

// Copies the commands of a lap as they stand.
// The output is lent whole with the place to write at, here and below, as that place stands in the file's table besides.
fn copy_lap(lap: Body, out: &mut [u8], to: usize)
    requires { to + 73 * lap.count ≤ length out.old }
    ensures { PutLap (commands_at lap.entry.bytes.now lap.entry.at lap.entry.count) out.old out.new to lap.entry.count }
{
    // Byte by byte: of the library's `copy_from_slice`, of a length that is not known, the compiler makes a call of memmove, which a caller of the
    // archive would have to bring.
    for i in 0..COMMAND_BYTES * lap.count {
        out[to + i] = lap.bytes[lap.at + i];
    }
}

// Whether lap number j is the one behind lap k, where that is replaced too.
#[tactic(auto, using(crate::proofs::Next::one_before))]
fn is_next(both: bool, k: usize, j: usize) -> bool
    requires { 1 ≤ j }
    ensures { result ≡ (both && eqb j (k + 1)) }
{
    both && j - 1 == k
}

// The lap number j of the new file: lap k is the new one, the lap behind it the next one, if that is replaced too, and any other stays
// as it stands.
fn choose<'a>(k: usize, new: Body<'a>, next: Option<Body<'a>>, j: usize, lap: Body<'a>) -> Body<'a>
    requires { 1 ≤ j }
    ensures { commands_at result.bytes.now result.at result.count ≡ (if eqb j k then commands_at new.entry.bytes.now new.entry.at new.entry.count else (if is_some next.entry && eqb j (k + 1) then commands_of next.entry else commands_at lap.entry.bytes.now lap.entry.at lap.entry.count)) }
{
    if j == k {
        return new;
    }
    match next {
        Some(other) => { if j - 1 == k { other } else { lap } }
        None => lap,
    }
}

// Writes the fitted file, the mark first, with a new lap k and, where there is one, a new lap behind it. Returns how many bytes it has.
// A lap's number stays beside its file, here and below: `next_of`, `put_part` and `with_others` take numbers that a file does not have, so a type
// of those that it has would ask more of their callers. Nor has `1 ≤ k` a type: each public function that asks for it hands the number to `next_of`
// as well, which takes 0 too. The loop is a `for`, since it writes: a `fold` would carry the output and the place.
fn put_file(fitted: LapFile, k: usize, new: Body, next: Option<Body>, out: &mut [u8]) -> usize
    requires { (1 ≤ k) × (command_count (swap_both (is_some next) k (commands_at new.bytes.now new.at new.count) (commands_of next) (laps_of fitted.bytes.now)) ≤ 800) × (file_size (lap_count fitted.bytes.now) (command_count (swap_both (is_some next) k (commands_at new.bytes.now new.at new.count) (commands_of next) (laps_of fitted.bytes.now))) ≤ length out.old) }
    ensures { (result ≡ length (encode (swap_both (is_some next.entry) k (commands_at new.entry.bytes.now new.entry.at new.entry.count) (commands_of next.entry) (laps_of fitted.entry.bytes.now)))) × (out.new ≡ encode (swap_both (is_some next.entry) k (commands_at new.entry.bytes.now new.entry.at new.entry.count) (commands_of next.entry) (laps_of fitted.entry.bytes.now)) ++ drop (length (encode (swap_both (is_some next.entry) k (commands_at new.entry.bytes.now new.entry.at new.entry.count) (commands_of next.entry) (laps_of fitted.entry.bytes.now)))) out.old) }
{
    let l = fitted.lap_count();
    put_head(out, l);
    let mut to = 8 + 8 * l;
    for j in 0..l {
        let lap = choose(k, new, next, j + 1, fitted.lap(j));
        copy_lap(lap, out, to);
        put_entry(out, j, to, lap.count);
        to += COMMAND_BYTES * lap.count;
    }
    to
}

// Where lap k of a recorded file starts: where the lap before it ends.
fn start_of(file: LapFile, k: usize) -> Point3D
    requires { (1 ≤ k) × (k ≤ lap_count file.bytes.now) }
    ensures { result ≡ start_of k (laps_of file.entry.bytes.now) }
{
    if k == 1 {
        return Point3D::ZERO;
    }
    lap_end(file.lap(k - 2), Point3D::ZERO)
}

// The lap behind lap k of a recorded file, where it is fitted again.
// By `if`, as a `then_some` would hide the two cases that its contract tells apart.
pub fn next_of<'a>(file: LapFile<'a>, k: usize) -> Option<Body<'a>>
    ensures lacks { is_some result ≡ next_lacks k (laps_of file.entry.bytes.now) }
    ensures lap { commands_of result ≡ next_lap k (laps_of file.entry.bytes.now) }
    ensures few { IfSome result (λ lap. lap.count ≤ 800) }
    ensures bytes { IfSome result (λ lap. lap.bytes.now ≡ file.entry.bytes.now) }
{
    if file.lap_count() <= k {
        return None;
    }
    let lap = file.lap(k);
    if lacks_move(lap) { Some(lap) } else { None }
}

// Writes the fit of a recorded lap with its start, if there is one, from `to` on, by way of arrays of its own, and returns how many commands
// it has. Where there is none, no array is filled.
// The next lap comes without its start, and that it has few commands is a clause, here and below: whether there is one is asked where no start is
// known. Rule and output are no pair: one rule is for both fits, and each goes to a place of its own.
fn fit_next(next: Option<Body>, start: Point3D, rule: FitRule, out: &mut [u8], to: usize) -> usize
    requires { IfSome next (λ lap. lap.count ≤ 800) × (most_lap rule.rule.tolerance start (commands_of next) ≤ 800) × (to + 73 * length (fit_lap rule.rule start (commands_of next)) ≤ length out.old) }
    ensures { PutLap (fit_lap rule.rule start (commands_of next.entry)) out.old out.new to result }
{
    match next {
        Some(body) => {
            let mut room = LapRoom::new();
            fit_lap(StartedLap { body, start }, rule, &mut room, out, to)
        }
        None => 0,
    }
}

// Two laps in a buffer: the fit of the new commands, its first `count` commands, and that of the next lap, the `next` behind them, none
// where it is not fitted again.
#[derive(Clone, Copy)]
pub struct Part<'a> {
    pub bytes: &'a [u8],
    pub count: usize,
    pub next: usize,
    ghost inside: { 73 * (count + next) ≤ length bytes.now },
}

impl<'a> Part<'a> {
    pub fn first(self) -> Body<'a>
        ensures { (result.bytes.now ≡ self.entry.bytes.now) × (result.at ≡ 0) × (result.count ≡ self.entry.count) }
    {
        Body {
            bytes: self.bytes,
            at: 0,
            count: self.count,
        }
    }

    pub fn second(self) -> Body<'a>
        ensures { (result.bytes.now ≡ self.entry.bytes.now) × (result.at ≡ 73 * self.entry.count) × (result.count ≡ self.entry.next) }
    {
        Body {
            bytes: self.bytes,
            at: COMMAND_BYTES * self.count,
            count: self.next,
        }
    }
}

// How many commands the fit of the new commands has, and that of the next lap, 0 where it is not fitted again: as in `Part`, and in C's ticket,
// the two are added as they stand.
#[derive(Clone, Copy)]
pub struct Refit {
    pub count: usize,
    pub next: usize,
}

// Fits the new commands, and behind them the next lap where that is fitted again, to the front of a buffer.
// The new commands stay beside the number of the lap, here and below: a commit has the number, and no commands.
pub fn fit_both(
    recorded: LapFile,
    k: usize,
    commands: Commands,
    rule: FitRule,
    buffer: &mut [u8],
) -> Refit
    requires { (1 ≤ k) × (k ≤ lap_count recorded.bytes.now) × (most_both rule.rule.tolerance (laps_of recorded.bytes.now) k (lent_course commands.kinds.now commands.nums.now) ≤ 800) × (73 * most_both rule.rule.tolerance (laps_of recorded.bytes.now) k (lent_course commands.kinds.now commands.nums.now) ≤ length buffer.old) }
    ensures { PutBoth (new_fit rule.rule (laps_of recorded.entry.bytes.now) k commands.entry.kinds.now commands.entry.nums.now) (next_fit rule.rule (laps_of recorded.entry.bytes.now) k commands.entry.kinds.now commands.entry.nums.now) buffer.old buffer.new result.count result.next }
{
    let start = start_of(recorded, k);
    let lap = next_of(recorded, k);
    let count = fit_commands(commands, start, rule, buffer, 0);
    let end = course_end(commands, start);
    let next = fit_next(lap, end, rule, buffer, COMMAND_BYTES * count);
    Refit { count, next }
}

// Writes the fitted file with a part's first lap as lap k and, where the next lap is fitted again, its second as that one.
// Both files are parameters, here and in `with_others`: one is read only for whether the next lap is fitted again, and the functions below take
// the other alone, so a type of both would be taken apart at once.
pub fn put_part(recorded: LapFile, fitted: LapFile, k: usize, part: Part, out: &mut [u8]) -> usize
    requires { (1 ≤ k) × (command_count (stored_laps k (laps_of recorded.bytes.now) part.bytes.now part.count part.next (laps_of fitted.bytes.now)) ≤ 800) × (file_size (lap_count fitted.bytes.now) (command_count (stored_laps k (laps_of recorded.bytes.now) part.bytes.now part.count part.next (laps_of fitted.bytes.now))) ≤ length out.old) }
    ensures { (result ≡ length (encode (stored_laps k (laps_of recorded.entry.bytes.now) part.entry.bytes.now part.entry.count part.entry.next (laps_of fitted.entry.bytes.now)))) × (out.new ≡ encode (stored_laps k (laps_of recorded.entry.bytes.now) part.entry.bytes.now part.entry.count part.entry.next (laps_of fitted.entry.bytes.now)) ++ drop (length (encode (stored_laps k (laps_of recorded.entry.bytes.now) part.entry.bytes.now part.entry.count part.entry.next (laps_of fitted.entry.bytes.now)))) out.old) }
{
    let new = part.first();
    if next_of(recorded, k).is_some() {
        return put_file(fitted, k, new, Some(part.second()), out);
    }
    put_file(fitted, k, new, None, out)
}

// The commands of a lap of n, if it is not fitted again.
fn other(k: usize, both: bool, j: usize, n: usize) -> usize
    requires { 1 ≤ j }
    ensures { (result ≡ (if eqb j k then 0 else (if both && eqb j (k + 1) then 0 else n))) × (result ≤ n) }
{
    if j == k {
        return 0;
    }
    if is_next(both, k, j) { 0 } else { n }
}

// The commands in all laps but lap k and, where both are fitted again, lap k + 1.
// A `for`, as a `sum` would ask at each of its steps that the laps so far have few commands, which is known of all laps.
fn others_of(fitted: LapFile, k: usize, both: bool) -> usize
    requires { 1 ≤ k }
    ensures { (result ≡ command_count (swap_both both k [] [] (laps_of fitted.entry.bytes.now))) × (result ≤ 800) }
{
    let l = fitted.lap_count();
    let mut m = 0;
    for j in 0..l {
        m += other(k, both, j + 1, fitted.lap(j).count);
    }
    m
}

// The laps that are fitted again with `own` commands, and the commands in all other laps.
pub fn with_others(s: LapFile, f: LapFile, k: usize, own: usize) -> usize
    requires { (1 ≤ k) × (own ≤ 801) }
    ensures { result ≡ own + command_count (swap_both (next_lacks k (laps_of s.entry.bytes.now)) k [] [] (laps_of f.entry.bytes.now)) }
{
    own + others_of(f, k, next_of(s, k).is_some())
}

// What a lap, if there is one, could become at most.
// A `match`, as in `fit_next`: the closure of a `map_or` would take start and tolerance along.
fn most_next(next: Option<Body>, start: Point3D, tolerance: f64) -> usize
    requires { IfSome next (λ lap. lap.count ≤ 800) }
    ensures { result ≡ cap (most_lap tolerance start (commands_of next.entry)) }
{
    match next {
        Some(body) => most_lap(StartedLap { body, start }, tolerance),
        None => 0,
    }
}

// What the new commands, and the next lap where that is fitted again, could become at most, 801 for all above 800: it is added and compared.
pub fn most_new(s: LapFile, k: usize, commands: Commands, tolerance: f64) -> usize
    requires { (1 ≤ k) × (k ≤ lap_count s.bytes.now) }
    ensures { result ≡ cap (most_both tolerance (laps_of s.entry.bytes.now) k (lent_course commands.entry.kinds.now commands.entry.nums.now)) }
{
    let start = start_of(s, k);
    let end = course_end(commands, start);
    let own = course_most(commands, start, tolerance);
    add_capped(own, most_next(next_of(s, k), end, tolerance))
}
