// src/geo/algo/fitting.rs: what one range of points becomes, a Line, an Arc or a cut, and by which rule.
ghost use Rattle.std.specs.Prelude.{◌≡◌, [], ◌∷◌, ◌+◌, ◌*◌, ◌<◌, length};
ghost use Rattle.geo.specs.Domain.{most_points};
ghost use Rattle.geo.specs.Lent.{point_at};
ghost use Rattle.trial.specs.Trial.{try_arcs};
ghost use Rattle.pieces.specs.Pieces.{points_rule, laps_rule, hills_rule, counted, arc};
ghost use Rattle.pieces.specs.Commands.{normal_of, shaped};
ghost use Rattle.pieces.specs.Written.{noted, note_by, NotedPlaced};
ghost use Rattle.pieces.specs.Tested.{line_tested};

use farthest::farthest::{Ruler, farthest_between};
use floats::root::is_root_below;
use geo::lent::put_command;
use geo::lists::Stretch;
use geo::types::{Command, Point, Point3D};
use trial::trial::{Trial, try_arcs};

// What is noted beside each command of a fit: how many steps it covers, or which step of an Arc is worst, 0 for a Line. An enum by
// value: a rule carries it, and a closure in its place would make a type parameter of each function that takes a rule.
#[derive(Clone, Copy)]
pub enum Note {
    Steps,
    Worst,
}

// By which rule a range is judged: which distance of a point counts, whether arcs are tried, and the tolerance; and what
// is noted beside each command. A rule is made of any tolerance, as its definition is, so that it lies above 0 is asked where a
// range is fitted.
#[derive(Clone, Copy)]
pub struct Rule {
    pub ruler: Ruler,
    pub arcs: bool,
    pub tolerance: f64,
    pub note: Note,
}

// The three rules differ in constants: one function that takes them would be no plainer, since each has a sentence of the papers.
impl Rule {
    // The rule of the functions that take points: they measure to the endless line.
    pub fn of_points(tolerance: f64) -> Self
        ensures { result ≡ points_rule tolerance }
    {
        Self {
            ruler: Ruler::Line,
            arcs: true,
            tolerance,
            note: Note::Worst,
        }
    }

    // The rule of a course, and so of a file and of a lap: they measure to the segment.
    pub fn of_laps(tolerance: f64) -> Self
        ensures { result ≡ laps_rule tolerance }
    {
        Self {
            ruler: Ruler::Segment,
            arcs: true,
            tolerance,
            note: Note::Steps,
        }
    }

    // The rule of the fit for hills: it measures to the segment in x, y and z, and tries no arcs (document 02, §14).
    pub fn of_hills(tolerance: f64) -> Self
        ensures { result ≡ hills_rule tolerance }
    {
        Self {
            ruler: Ruler::Space,
            arcs: false,
            tolerance,
            note: Note::Steps,
        }
    }
}

// What the Line of a range comes to: whether its deviation is below the rule's tolerance, and its first farthest point. The point
// is told of a Line that passes too, so an Option would promise less.
#[derive(Clone, Copy)]
pub struct Tested {
    pub passes: bool,
    pub index: usize,
}

// Most deviations are not near the tolerance, and need no root to be compared with it.
#[tactic(auto, unfolding(crate::specs::Tested::line_tested, deviations::specs::Line::line_deviation, deviations::specs::Line::rooted))]
pub fn test_line(rule: Rule, range: Stretch) -> Tested
    ensures { result ≡ line_tested rule (point_at range.entry.points.now) range.entry.start range.entry.end }
{
    let far = farthest_between(rule.ruler, range);
    Tested {
        passes: is_root_below(far.square, rule.tolerance),
        index: far.index,
    }
}

#[tactic(auto, unfolding(crate::specs::Commands::normal_of))]
fn normal(clockwise: bool) -> Point3D
    ensures { result ≡ normal_of clockwise }
{
    if clockwise {
        return Point3D {
            x: 0.0,
            y: 0.0,
            z: -1.0,
        };
    }
    Point3D {
        x: 0.0,
        y: 0.0,
        z: 1.0,
    }
}

// The Arc from a to b round a centre. Its centre is given from a. The command is itself the value of its parts, and so takes them one
// by one.
#[tactic(auto, unfolding(crate::specs::Commands::shaped))]
pub fn arc_command(a: Point3D, b: Point3D, center: Point, clockwise: bool) -> Command
    ensures { result ≡ shaped a b (arc center clockwise) }
{
    Command::Arc {
        end: b,
        center_offset: Point3D {
            x: center.x - a.x,
            y: center.y - a.y,
            z: 0.0,
        },
        normal: normal(clockwise),
    }
}

// Writes a command at place `at`, and a note beside it, where the column of notes reaches so far: who wants no notes
// lends an empty one. The outputs are parameters and no struct, and the place too: a fit and a course have them in two structs of their
// own, and a third, of three exclusive borrows, would be put together and taken apart at each command.
pub fn put_noted(
    kinds: &mut [u8],
    nums: &mut [f64],
    notes: &mut [u32],
    at: usize,
    c: Command,
    note: u32,
)
    requires { (at < length kinds.old) × (9 * at + 8 < length nums.old) }
    ensures { NotedPlaced (noted c note ∷ []) at 1 kinds.old kinds.new nums.old nums.new notes.old notes.new }
{
    put_command(kinds, nums, at, c);
    if at < notes.len() {
        notes[at] = note;
    }
}

// The arc of a range whose Line fails, where arcs are tried; k is its Line's first farthest point. That the range ends among the most
// points is asked here, as by the trials and by `ranges::fit_range`: a `Stretch` is of a list of any length, and a type beside it would
// be made at each cut for this one clause.
pub fn try_rule(rule: Rule, range: Stretch, k: usize) -> Option<Trial>
    requires { (range.end < most_points) × (range.start < k) × (k < range.end) }
    ensures { result ≡ counted rule (try_arcs (point_at range.entry.points.now) range.entry.start range.entry.end k rule.tolerance) }
{
    if !rule.arcs {
        return None;
    }
    try_arcs(range, k, rule.tolerance)
}

// What is noted beside a command that covers so many steps, `worst` being the worst of them. The number is the note as it is
// written, and no refusal.
#[tactic(auto, unfolding(crate::specs::Written::note_by))]
pub fn note_of(note: Note, covered: usize, worst: usize) -> u32
    requires { (covered < most_points) × (worst < most_points) }
    ensures { result ≡ note_by note covered worst }
{
    match note {
        Note::Steps => covered as u32,
        Note::Worst => worst as u32,
    }
}
