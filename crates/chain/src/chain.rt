// src/geo/algo/fitting.rs: what a command of a course does to the chain under way, and what becomes of a chain that ends (flush_chain).
ghost use Rattle.std.specs.Prelude.{◌≡◌, true, map, ◌+◌, ◌-◌, ◌*◌, ◌/◌, ◌≤◌, length};
ghost use Rattle.std.proofs.lemmas.List.Edits.{sets};
ghost use Rattle.floats.specs.Ops.{◌≺◌, ◌⊗◌, +0};
ghost use Rattle.floats.specs.Limits.{quarter};
ghost use Rattle.geo.specs.Domain.{most_commands};
ghost use Rattle.geo.specs.Lent.{triple, flat, point_at};
ghost use Rattle.geo.specs.Walk.{list_from};
ghost use Rattle.bezier.specs.Linearize.{step_end, step_count, param_steps};
ghost use Rattle.std.specs.Float.Ieee.{to_unsigned};
ghost use Rattle.pieces.specs.Written.{NotedPlaced};
ghost use Rattle.chain.specs.declared.chain.Flush.TheVariants.{AsItStands, Lines};
ghost use Rattle.chain.specs.Parts.{ends};
ghost use Rattle.chain.specs.Chains.{chain_points, chain_numbers, cap, joins_beziers, joined_by, line_noted, flushed_by, under_way, Room, Stepped, SameLent};

use bezier::bezier::{put_ends, raise_controls, steps_needed, whole_steps};
use geo::domain::MOST_COMMANDS;
use geo::lent::{point_at, put_point};
use geo::lists::Stretch;
use geo::types::{Command, CubicBezier, MOST_STEPS, Point3D};
use pieces::pieces::{Rule, put_noted};
use ranges::ranges::{FitRule, fit_range, flush_chain};
use simplify::simplify::thin_in_place;

// Where a walk along a course stands.
#[derive(Clone, Copy)]
pub struct Walk {
    // how many points the chain under way has
    pub points: usize,
    // where the last command ended
    pub last: Point3D,
    // how many commands are written
    pub written: usize,
}

// What becomes of a chain that is flushed. An enum and no closure: whether Beziers join goes with it, and the definition has the same cases.
#[derive(Clone, Copy)]
pub enum Flush {
    // thinned and fitted
    Fitted,
    // fitted as it stands
    AsItStands,
    // thinned, and written as Lines
    Lines,
}

impl Flush {
    // Whether a Bezier's steps join the chain; else it is kept.
    #[tactic(auto, unfolding(crate::specs::Chains::joins_beziers))]
    fn joins_beziers(self) -> bool
        ensures { result ≡ joins_beziers self }
    {
        matches!(self, Flush::Fitted)
    }
}

impl Walk {
    // The most of a course that is accepted, and the commands that one is given in.
    pub const MOST: usize = MOST_COMMANDS;
    // Stands for every count above the most. No longer chain has a course of the most, its first point included.
    pub const OVER: usize = 801;
    // The numbers of the longest chain, three a point.
    pub const CHAIN: usize = 2403;
    // The numbers of the most commands, nine a command.
    pub const NUMBERS: usize = 7200;

    // A chain has its first point from the start.
    pub fn new(start: Point3D) -> Self
        ensures { result ≡ record { points = 1; last = start; written = 0 } }
    {
        Self {
            points: 1,
            last: start,
            written: 0,
        }
    }

    // A Line's end joins the chain.
    fn add_line(&mut self, end: Point3D, chain: &mut [f64])
        requires { (self.old.points ≤ most_commands) × (3 * self.old.points + 3 ≤ length chain.old) }
        ensures { (self.new ≡ record { points = self.old.points + 1; last = end; written = self.old.written }) × (chain.new ≡ sets chain.old (3 * self.old.points) (triple end)) }
    {
        put_point(chain, 3 * self.points, end);
        self.points += 1;
        self.last = end;
    }

    // The ends of a Bezier's steps join the chain. Its three points come apart, as the `match` over the command gives them: a type would hold
    // them for this one call, since with the last point they are a `CubicBezier`.
    fn add_bezier(
        &mut self,
        end: Point3D,
        control1: Point3D,
        control2: Point3D,
        tolerance: f64,
        chain: &mut [f64],
    )
        requires { (self.old.points + length (param_steps end control1 control2 self.old.last (tolerance ⊗ quarter)) ≤ chain_points) × (1 ≤ self.old.points) × (length chain.old ≡ chain_numbers) }
        ensures { (self.new ≡ record { points = self.old.points + length (param_steps end control1 control2 self.old.last (tolerance ⊗ quarter)); last = end; written = self.old.written }) × (chain.new ≡ sets chain.old (3 * self.old.points) (flat step_end (param_steps end control1 control2 self.old.last (tolerance ⊗ quarter)))) }
    {
        let q = raise_controls(end, control1, control2, self.last);
        let n = bezier_steps(q, tolerance * 0.25);
        put_ends(q, n, chain, self.points);
        self.points += n;
        self.last = end;
    }
}

// How many steps a Bezier of a course has, 801 for all above 800: a number and no option, since a course's counts are added up, and what is too
// many has to stay so in each sum.
pub fn bezier_steps(q: CubicBezier<Point3D>, resolution: f64) -> usize
    ensures { result ≡ cap (to_unsigned 64 (step_count q.0 q.1 q.2 q.3 resolution)) }
{
    let needed = steps_needed(q, resolution);
    if needed <= MOST_STEPS {
        return whole_steps(needed);
    }
    Walk::OVER
}

// Writes a Line to each point but the first. Each covers one step. The count is kept beside the index: it is the answer too, and one less than
// the points would be below zero where there are none. The outputs are parameters here and below, and what is asked of their room and of the
// chain's length are clauses: a struct of them would be asked the same room, and each contract would say besides that its slices stay the ones
// that were lent, as that of `fit_range` would. Rule and chain are parameters too: of a `Walker`'s buffer only the front is the chain.
fn put_lines(
    points: &[f64],
    kinds: &mut [u8],
    nums: &mut [f64],
    steps: &mut [u32],
    at: usize,
) -> usize
    requires { (length points.now / 3 ≤ chain_points) × (at + (length points.now / 3 - 1) ≤ length kinds.old) × (9 * (at + (length points.now / 3 - 1)) ≤ length nums.old) }
    ensures { NotedPlaced (map line_noted (list_from (point_at points.now) (length points.now / 3 - 1) 1)) at result kinds.old kinds.new nums.old nums.new steps.old steps.new }
{
    let n = points.len() / 3;
    let mut written = 0;
    for i in 1..n {
        let end = point_at(points, i);
        put_noted(kinds, nums, steps, at + written, Command::Line { end }, 1);
        written += 1;
    }
    written
}

// Thins a chain, in place, to Lines.
fn thin_chain(
    rule: Rule,
    chain: &mut [f64],
    kinds: &mut [u8],
    nums: &mut [f64],
    steps: &mut [u32],
    at: usize,
) -> usize
    requires { (length chain.old / 3 ≤ chain_points) × (at + (length chain.old / 3 - 1) ≤ length kinds.old) × (9 * (at + (length chain.old / 3 - 1)) ≤ length nums.old) }
    // What the chain holds at exit is left open.
    ensures { NotedPlaced (flushed_by Lines rule chain.old) at result kinds.old kinds.new nums.old nums.new steps.old steps.new }
{
    let k = thin_in_place(rule.ruler, chain, rule.tolerance * rule.tolerance);
    put_lines(&chain[..3 * k], kinds, nums, steps, at)
}

// Fits a chain as it stands.
fn fit_chain(
    rule: FitRule,
    chain: &[f64],
    kinds: &mut [u8],
    nums: &mut [f64],
    steps: &mut [u32],
    at: usize,
) -> usize
    requires { (length chain.now / 3 ≤ chain_points) × (at + (length chain.now / 3 - 1) ≤ length kinds.old) × (9 * (at + (length chain.now / 3 - 1)) ≤ length nums.old) }
    ensures { NotedPlaced (flushed_by AsItStands rule.rule chain.now) at result kinds.old kinds.new nums.old nums.new steps.old steps.new }
{
    let n = chain.len() / 3;
    if n < 2 {
        return 0;
    }
    let route = Stretch {
        points: chain,
        start: 0,
        end: n - 1,
    };
    fit_range(rule, route, kinds, nums, steps, at)
}

// Writes a chain's commands with the steps that each covers, and answers how many they are. The chain may be thinned in place.
pub fn flush_by(
    how: Flush,
    rule: FitRule,
    chain: &mut [f64],
    kinds: &mut [u8],
    nums: &mut [f64],
    steps: &mut [u32],
    at: usize,
) -> usize
    requires { (length chain.old / 3 ≤ chain_points) × (at + (length chain.old / 3 - 1) ≤ length kinds.old) × (9 * (at + (length chain.old / 3 - 1)) ≤ length nums.old) }
    // What the chain holds at exit is left open.
    ensures { NotedPlaced (flushed_by how rule.rule chain.old) at result kinds.old kinds.new nums.old nums.new steps.old steps.new }
{
    match how {
        Flush::Fitted => flush_chain(rule, chain, kinds, nums, steps, at),
        Flush::AsItStands => fit_chain(rule, chain, kinds, nums, steps, at),
        Flush::Lines => thin_chain(rule.rule, chain, kinds, nums, steps, at),
    }
}

// A walk along a course: what becomes of its chains, and by which rule; where it stands; and what is lent to it: the chain's buffer, both outputs,
// and a column for the steps that each command covers, empty where nobody wants them.
#[derive(Drop)]
pub struct Walker<'a> {
    pub how: Flush,
    pub rule: FitRule,
    pub at: Walk,
    pub chain: &'a mut [f64],
    pub kinds: &'a mut [u8],
    pub nums: &'a mut [f64],
    pub steps: &'a mut [u32],
}

impl<'a> Walker<'a> {
    // Writes the commands of the chain under way, and answers how many they are.
    pub fn flush(&mut self) -> usize
        requires { (3 * self.old.at.points ≤ length self.old.chain.now) × (self.old.at.points ≤ chain_points) × (self.old.at.written + (self.old.at.points - 1) ≤ length self.old.kinds.now) × (9 * (self.old.at.written + (self.old.at.points - 1)) ≤ length self.old.nums.now) }
        ensures same { SameLent self.old self.new }
        ensures stays { self.new.at ≡ self.old.at }
        // What the chain holds at exit is left open.
        ensures written { NotedPlaced (flushed_by self.old.how self.old.rule.rule (under_way self.old.at self.old.chain.now)) self.old.at.written result self.old.kinds.now self.new.kinds.now self.old.nums.now self.new.nums.now self.old.steps.now self.new.steps.now }
    {
        let at = self.at;
        let chain = &mut *self.chain;
        flush_by(
            self.how,
            self.rule,
            &mut chain[..3 * at.points],
            self.kinds,
            self.nums,
            self.steps,
            at.written,
        )
    }

    // The command ends the chain: the chain is flushed, and the command kept as it stands. It covers no step.
    fn keep(&mut self, c: Command)
        requires { Room ends c self.old.at self.old.chain.now (length self.old.kinds.now) (length self.old.nums.now) }
        ensures same { SameLent self.old self.new }
        ensures stepped { Stepped (flushed_by self.old.how self.old.rule.rule) ends c self.old.at self.new.at self.old.chain.now self.new.chain.now self.old.kinds.now self.new.kinds.now self.old.nums.now self.new.nums.now self.old.steps.now self.new.steps.now }
    {
        let n = self.flush();
        let written = self.at.written + n;
        put_noted(self.kinds, self.nums, self.steps, written, c, 0);
        let end = c.end_point();
        put_point(self.chain, 0, end);
        self.at = Walk {
            points: 1,
            last: end,
            written: written + 1,
        };
    }

    // One command of a course.
    pub fn take(&mut self, c: Command)
        requires { Room (joined_by self.old.how self.old.rule.rule.tolerance self.old.at.last c) c self.old.at self.old.chain.now (length self.old.kinds.now) (length self.old.nums.now) }
        ensures same { SameLent self.old self.new }
        ensures stepped { Stepped (flushed_by self.old.how self.old.rule.rule) (joined_by self.old.how self.old.rule.rule.tolerance self.old.at.last c) c self.old.at self.new.at self.old.chain.now self.new.chain.now self.old.kinds.now self.new.kinds.now self.old.nums.now self.new.nums.now self.old.steps.now self.new.steps.now }
    {
        match c {
            Command::Line { end } => self.at.add_line(end, self.chain),
            Command::Bezier {
                end,
                control1,
                control2,
            } => {
                if self.how.joins_beziers() {
                    let tolerance = self.rule.rule.tolerance;
                    self.at
                        .add_bezier(end, control1, control2, tolerance, self.chain);
                    return;
                }
                self.keep(c)
            }
            Command::Move { end: _ } => self.keep(c),
            Command::Arc {
                end: _,
                center_offset: _,
                normal: _,
            } => self.keep(c),
        }
    }
}
