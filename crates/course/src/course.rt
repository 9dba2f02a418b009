// src/geo/algo/fitting.rs: fit_arcs and optimize_path_from_array.
ghost use Rattle.std.specs.Prelude.{◌≡◌, ◌+◌, ◌*◌, ◌≤◌, length, take};
ghost use Rattle.geo.specs.Domain.{most_commands};
ghost use Rattle.geo.specs.Outcome.{refusal};
ghost use Rattle.geo.specs.Refusal.{refused_by};
ghost use Rattle.geo.specs.Wrote.{WroteCommands};
ghost use Rattle.pieces.specs.Written.{FitPlaced, NotedPlaced};
ghost use Rattle.chain.specs.Parts.{most_of};
ghost use Rattle.chain.specs.Joins.{joined};
ghost use Rattle.chain.specs.Chains.{chain_points, chain_numbers, cap, SameLent};
ghost use Rattle.geo.specs.Lent.{triple};
ghost use Rattle.course.specs.Course.{fit_on, most_on, end_on, lent_course, arcs_rows, arcs_call, optimize_call};
ghost use Rattle.course.specs.Walks.{weight_of, path_flush, parts_by, fit_by, noted_on};

use bezier::bezier::raise_controls;
use chain::chain::{Flush, Walk, Walker, bezier_steps};
use geo::domain::check_input;
use geo::lent::put_point;
use geo::lists::Commands;
use geo::refusal::Refusal;
use geo::types::{Command, Point3D};
use pieces::pieces::Rule;
use ranges::ranges::FitRule;
use simplify::simplify::refuse_commands;

// What a command adds to the most of its course.
#[tactic(auto, unfolding(chain::specs::Chains::cap, chain::specs::Joins::joined, crate::specs::Walks::weight_of))]
pub fn weight(c: Command, last: Point3D, tolerance: f64) -> usize
    ensures { result ≡ cap (weight_of (joined tolerance last c)) }
{
    match c {
        Command::Move { end: _ } => 1,
        Command::Line { end: _ } => 1,
        Command::Arc {
            end: _,
            center_offset: _,
            normal: _,
        } => 1,
        Command::Bezier {
            end,
            control1,
            control2,
        } => {
            let q = raise_controls(end, control1, control2, last);
            bezier_steps(q, tolerance * 0.25)
        }
    }
}

// The sum of two counts, 801 for all above 800, as `bezier_steps` counts. The test is that of the definition: `min` with 801 would leave the 800 unsaid.
#[tactic(auto, unfolding(chain::specs::Chains::cap))]
pub fn add_capped(a: usize, b: usize) -> usize
    requires { (a ≤ chain_points) × (b ≤ chain_points) }
    ensures { (result ≡ cap (a + b)) × (result ≤ chain_points) }
{
    let n = a + b;
    if Walk::MOST < n {
        return Walk::OVER;
    }
    n
}

// The most of a course from its start, 801 for all above 800. A `for`, since a `fold` would carry both the sum and where the last command ended.
// Start and tolerance, or start and rule, are no pair here and below: a file has one rule, and each of its laps a start of its own.
pub fn course_most(commands: Commands, start: Point3D, tolerance: f64) -> usize
    ensures { result ≡ cap (most_on tolerance start (lent_course commands.entry.kinds.now commands.entry.nums.now)) }
{
    let mut most = 0;
    let mut last = start;
    for i in 0..commands.kinds.len() {
        let c = commands.at(i);
        most = add_capped(most, weight(c, last, tolerance));
        last = c.end_point();
    }
    most
}

// Where a course ends that starts at `start`: with its last command, of whatever kind.
pub fn course_end(commands: Commands, start: Point3D) -> Point3D
    ensures { result ≡ end_on start (lent_course commands.entry.kinds.now commands.entry.nums.now) }
{
    let n = commands.kinds.len();
    if n == 0 {
        return start;
    }
    commands.end_at(n - 1)
}

// Walks along a course from where w stands, which has written nothing and holds its start alone, and answers how many commands it gives. A `for`,
// since each turn changes w.
fn walk_along(commands: Commands, w: &mut Walker) -> usize
    requires room { (most_of (parts_by w.old.how w.old.rule.rule.tolerance w.old.at.last (lent_course commands.kinds.now commands.nums.now)) ≤ most_commands) × (most_of (parts_by w.old.how w.old.rule.rule.tolerance w.old.at.last (lent_course commands.kinds.now commands.nums.now)) ≤ length w.old.kinds.now) × (9 * most_of (parts_by w.old.how w.old.rule.rule.tolerance w.old.at.last (lent_course commands.kinds.now commands.nums.now)) ≤ length w.old.nums.now) × (length w.old.chain.now ≡ chain_numbers) }
    requires begun { (w.old.at ≡ record { points = 1; last = w.old.at.last; written = 0 }) × (take 3 w.old.chain.now ≡ triple w.old.at.last) }
    ensures same { SameLent w.old w.new }
    ensures written { NotedPlaced (fit_by w.old.how w.old.rule.rule w.old.at.last (lent_course commands.entry.kinds.now commands.entry.nums.now)) 0 result w.old.kinds.now w.new.kinds.now w.old.nums.now w.new.nums.now w.old.steps.now w.new.steps.now }
{
    for i in 0..commands.kinds.len() {
        w.take(commands.at(i));
    }
    let n = w.flush();
    w.at.written + n
}

// Walks along a course from its start, and answers how many commands it gives. The caller lends the chain's buffer, so that many courses
// share one, and a column for the steps that each command covers, empty where nobody wants them. The outputs are lent one by one here and below:
// C has no struct of them, and what is asked of their lengths depends on the course. Nor are rule and buffer a pair: the rule is a file's, and what the
// buffer holds each course's own.
fn walk_course(
    commands: Commands,
    start: Point3D,
    how: Flush,
    rule: FitRule,
    chain: &mut [f64; Walk::CHAIN],
    out_kinds: &mut [u8],
    out_nums: &mut [f64],
    steps: &mut [u32],
) -> usize
    requires { (most_of (parts_by how rule.rule.tolerance start (lent_course commands.kinds.now commands.nums.now)) ≤ most_commands) × (most_of (parts_by how rule.rule.tolerance start (lent_course commands.kinds.now commands.nums.now)) ≤ length out_kinds.old) × (9 * most_of (parts_by how rule.rule.tolerance start (lent_course commands.kinds.now commands.nums.now)) ≤ length out_nums.old) }
    // What the chain holds at exit is left open.
    ensures { NotedPlaced (fit_by how rule.rule start (lent_course commands.entry.kinds.now commands.entry.nums.now)) 0 result out_kinds.old out_kinds.new out_nums.old out_nums.new steps.old steps.new }
{
    // The buffer may still hold the chain of another course.
    put_point(chain, 0, start);
    let mut w = Walker {
        how,
        rule,
        at: Walk::new(start),
        chain,
        kinds: out_kinds,
        nums: out_nums,
        steps,
    };
    walk_along(commands, &mut w)
}

// Fits a course from its start, notes how many steps each command covers, and answers how many commands there are.
pub fn fit_course_with_steps(
    commands: Commands,
    start: Point3D,
    rule: FitRule,
    chain: &mut [f64; Walk::CHAIN],
    out_kinds: &mut [u8],
    out_nums: &mut [f64],
    steps: &mut [u32],
) -> usize
    requires { (most_on rule.rule.tolerance start (lent_course commands.kinds.now commands.nums.now) ≤ most_commands) × (most_on rule.rule.tolerance start (lent_course commands.kinds.now commands.nums.now) ≤ length out_kinds.old) × (9 * most_on rule.rule.tolerance start (lent_course commands.kinds.now commands.nums.now) ≤ length out_nums.old) }
    // The chain is lent as room to work in: what it holds at exit is left open.
    ensures { NotedPlaced (noted_on rule.rule start (lent_course commands.entry.kinds.now commands.entry.nums.now)) 0 result out_kinds.old out_kinds.new out_nums.old out_nums.new steps.old steps.new }
{
    walk_course(
        commands,
        start,
        Flush::Fitted,
        rule,
        chain,
        out_kinds,
        out_nums,
        steps,
    )
}

// Fits a course from its start, and answers how many commands it gives.
pub fn fit_course(
    commands: Commands,
    start: Point3D,
    rule: FitRule,
    chain: &mut [f64; Walk::CHAIN],
    out_kinds: &mut [u8],
    out_nums: &mut [f64],
) -> usize
    requires { (most_on rule.rule.tolerance start (lent_course commands.kinds.now commands.nums.now) ≤ most_commands) × (most_on rule.rule.tolerance start (lent_course commands.kinds.now commands.nums.now) ≤ length out_kinds.old) × (9 * most_on rule.rule.tolerance start (lent_course commands.kinds.now commands.nums.now) ≤ length out_nums.old) }
    // The chain is lent as room to work in: what it holds at exit is left open.
    ensures { FitPlaced (fit_on rule.rule start (lent_course commands.entry.kinds.now commands.entry.nums.now)) 0 result out_kinds.old out_kinds.new out_nums.old out_nums.new }
{
    fit_course_with_steps(commands, start, rule, chain, out_kinds, out_nums, &mut [])
}

// Why a course is refused, if it is. It and the calls below take their arguments as C lends them, one by one. An output's room is that of the smaller of its two slices.
fn check_course(
    kinds: &[u8],
    nums: &[f64],
    tolerance: f64,
    out_kinds: usize,
    out_nums: usize,
) -> Result<(), Refusal>
    ensures { refused_by result ≡ refusal (arcs_rows kinds.now nums.now tolerance out_kinds out_nums) }
{
    check_input(kinds, nums, tolerance, out_nums)?;
    let commands = Commands { kinds, nums };
    let most = course_most(commands, Point3D::ZERO, tolerance);
    if Walk::MOST < most {
        return Err(Refusal::TooMuch);
    }
    if out_kinds < most {
        return Err(Refusal::NoRoom);
    }
    if out_nums / 9 < most {
        return Err(Refusal::NoRoom);
    }
    Ok(())
}

// Fits lines and arcs to the commands' chains of points; Arcs are kept as they stand, and Beziers become points of a chain.
pub fn fit_arcs(
    kinds: &[u8],
    nums: &[f64],
    tolerance: f64,
    out_kinds: &mut [u8],
    out_nums: &mut [f64],
) -> Result<usize, Refusal>
    ensures { WroteCommands (arcs_call kinds.now nums.now tolerance (length out_kinds.old) (length out_nums.old)) out_kinds.old out_kinds.new out_nums.old out_nums.new result }
{
    check_course(kinds, nums, tolerance, out_kinds.len(), out_nums.len())?;
    let commands = Commands { kinds, nums };
    let mut chain = [0.0; Walk::CHAIN];
    let rule = FitRule {
        rule: Rule::of_laps(tolerance),
    };
    Ok(fit_course(
        commands,
        Point3D::ZERO,
        rule,
        &mut chain,
        out_kinds,
        out_nums,
    ))
}

// How a path's chains are written: C's call says so by a truth.
#[tactic(auto, unfolding(crate::specs::Walks::path_flush))]
fn path_flush(use_fit_arcs: bool) -> Flush
    ensures { result ≡ path_flush use_fit_arcs }
{
    if use_fit_arcs {
        Flush::AsItStands
    } else {
        Flush::Lines
    }
}

// Optimises a path by thinning its chains of Lines, or by fitting lines and arcs to them; every other command is kept.
pub fn optimize_path_from_array(
    kinds: &[u8],
    nums: &[f64],
    tolerance: f64,
    use_fit_arcs: bool,
    out_kinds: &mut [u8],
    out_nums: &mut [f64],
) -> Result<usize, Refusal>
    ensures { WroteCommands (optimize_call kinds.now nums.now tolerance use_fit_arcs (length out_kinds.old) (length out_nums.old)) out_kinds.old out_kinds.new out_nums.old out_nums.new result }
{
    refuse_commands(kinds, nums, tolerance, out_kinds.len(), out_nums.len())?;
    let commands = Commands { kinds, nums };
    let how = path_flush(use_fit_arcs);
    let rule = FitRule {
        rule: Rule::of_points(tolerance),
    };
    let mut chain = [0.0; Walk::CHAIN];
    Ok(walk_course(
        commands,
        Point3D::ZERO,
        how,
        rule,
        &mut chain,
        out_kinds,
        out_nums,
        &mut [],
    ))
}
