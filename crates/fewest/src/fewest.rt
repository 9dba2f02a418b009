// The fewest straights, for printed maps: a search in layers, by a budget of tests. The output is written when the search
// has ended.
ghost use Rattle.std.specs.Prelude.{◌≡◌, true, false, ◌+◌, ◌-◌, ◌*◌, ◌/◌, ◌≤◌, ◌<◌, [], length, IfOk};
ghost use Rattle.std.proofs.lemmas.List.Edits.{sets};
ghost use Rattle.floats.specs.Ops.{◌≺◌, +0};
ghost use Rattle.geo.specs.Lent.{point_at, flat};
ghost use Rattle.geo.specs.Outcome.{refusal, left, Placed};
ghost use Rattle.geo.specs.Refusal.{outcome, refused_by};
ghost use Rattle.farthest.specs.Measure.{chord_of};
ghost use Rattle.ways.specs.Layers.{going, in_order, back};
ghost use Rattle.fewest.specs.Straights.{most_points, last_of, passing, cut_ends, fewest_of, numbers_at};
ghost use Rattle.fewest.specs.Calls.{straights_rows, straights_call, straights_answer, ends_given};
ghost use Rattle.fewest.specs.Lent.{Gave};

use deviations::deviations::line_deviation;
use farthest::farthest::{Chord, Ruler};
use floats::root::sqrt;
use geo::domain::{all_coordinates, is_tolerance};
use geo::lent::{point_at, put_point};
use geo::lists::Stretch;
use geo::refusal::Refusal;
use ways::phase::Phase;

// What a search is asked: the points, the tolerance of a Line, the index of the last point, and how many pairs it may test.
#[derive(Clone, Copy)]
pub struct Task<'a> {
    pub points: &'a [f64],
    pub tolerance: f64,
    pub last: usize,
    pub budget: u64,
    ghost few: { last < most_points },
    ghost inside: { 3 * last + 2 < length points.now },
    ghost positive: { (+0 ≺ tolerance) ≡ true },
}

impl<'a> Task<'a> {
    // "Fewer than 2 or more than 256 points give 2."
    pub const LEAST_POINTS: usize = 2;

    pub const MOST_POINTS: usize = 256;

    // Whether the Line from u to v may stand. Most pairs do not pass, and of these most show it in the middle: it is looked
    // at first.
    fn passes(&self, u: usize, v: usize) -> bool
        requires { (u < v) × (v ≤ self.now.last) }
        ensures { result ≡ passing self.now.points.now self.now.tolerance u v }
    {
        let between = Stretch {
            points: self.points,
            start: u,
            end: v,
        };
        let chord = Chord::new(between.first(), between.last());
        let middle = (u + v + 1) / 2;
        if strays(between, chord, self.tolerance, middle, v) {
            return false;
        }
        if strays(between, chord, self.tolerance, u + 1, middle) {
            return false;
        }
        line_deviation(Ruler::Line, between).dist < self.tolerance
    }

    // Writes the ends of the recursive line-only cut of a range, from place `at` on, and answers how many they are. The range is
    // no Stretch here: handed on by each cut it made each frame on the stack 32 bytes larger. Output and place are two, for the second part
    // is written behind the first: a struct of both would be made anew at each cut.
    fn cut(&self, lo: usize, hi: usize, out: &mut [f64], at: usize) -> usize
        requires { (lo < hi) × (hi ≤ self.now.last) × (3 * (at + (hi - lo)) ≤ length out.old) }
        ensures { Placed (numbers_at self.now.points.now) 3 (cut_ends self.now.points.now self.now.tolerance lo hi) at result out.old out.new }
    {
        let range = Stretch {
            points: self.points,
            start: lo,
            end: hi,
        };
        let w = line_deviation(Ruler::Line, range);
        if w.dist < self.tolerance {
            put_point(out, 3 * at, range.last());
            return 1;
        }
        let k = w.index;
        let n = self.cut(lo, k, out, at);
        let m = self.cut(k, hi, out, at + n);
        n + m
    }
}

// Whether a point from `from` on, and before `to`, is seen at or above the tolerance from the Line of a stretch, which then does not
// pass. A part is two indices and no second `Stretch`, whose ends would not be the chord's. A point whose spread says that it is nearer
// costs no division and no root; that test alone decides nothing. A loop: its test says that a point lies between the ends, which from an
// `any` would have to be read back out of the list that it went through.
fn strays(between: Stretch, chord: Chord, tolerance: f64, from: usize, to: usize) -> bool
    requires { (chord ≡ chord_of (point_at between.points.now between.start) (point_at between.points.now between.end)) × ((between.start < from) × (to ≤ between.end)) }
    ensures { result ≡ true → passing between.entry.points.now tolerance between.entry.start between.entry.end ≡ false }
{
    let near = tolerance * tolerance * chord.square;
    for i in from..to {
        let spread = chord.spread(between.at(i));
        if near < spread && tolerance <= sqrt(chord.distance_squared(spread)) {
            return true;
        }
    }
    false
}

// How a point was reached: by the layer of this number, the first point's being 1, and 0 where it is not reached; and from which
// point. No Option stands for the 0: the search is defined over these numbers in `ways`, and each test would have to go between the two.
#[derive(Clone, Copy)]
struct Reach {
    level: u16,
    parent: u16,
}

// A search on its way: how each point was reached, the pairs tested and the layers finished so far, and where it stands.
#[derive(Drop)]
struct Search<'a> {
    task: Task<'a>,
    reached: [Reach; Task::MOST_POINTS],
    tested: u64,
    finished: usize,
    phase: Phase,
    ghost paid: { tested ≤ task.budget },
}

impl<'a> Search<'a> {
    ghost use Rattle.fewest.specs.Search.{On, Went, Ran, Begun, Within, parents, pair_of, point_of, layer_of};

    // Before the first pair the first point alone is reached.
    fn new(task: Task<'a>) -> Self
        ensures { Begun task.entry result }
    {
        let unreached = Reach {
            level: 0,
            parent: 0,
        };
        let mut reached = [unreached; Task::MOST_POINTS];
        reached[0] = Reach {
            level: 1,
            parent: 0,
        };
        Self {
            task,
            reached,
            tested: 0,
            finished: 0,
            phase: Phase::Going,
        }
    }

    // The pair of u and v comes up in a search that goes on. Where v is reached already no pair is due, and its first parent
    // stays; the budget is looked at only when a pair is due. That the search goes on is asked here and below, of points up to the last: no
    // field can say it, for the next pair may end the search.
    fn try_pair(&mut self, u: usize, v: usize)
        requires { (u < v) × (v ≤ self.old.task.last) × On self.old }
        ensures { Went (λ t. pair_of t u v) self.old self.new }
    {
        if self.reached[v].level > 0 {
            return;
        }
        if self.tested == self.task.budget {
            self.phase = Phase::Spent;
            return;
        }
        self.tested += 1;
        if self.task.passes(u, v) {
            self.reached[v] = Reach {
                level: (self.finished + 2) as u16,
                parent: u as u16,
            };
            if v == self.task.last {
                self.phase = Phase::Arrived;
            }
        }
    }

    // u with all its later points, in list order, in a search that goes on.
    fn try_later(&mut self, u: usize)
        requires { (u ≤ self.old.task.last) × On self.old }
        ensures { Went (λ t. in_order (pair_of t u) (t.last - u) (u + 1)) self.old self.new }
    {
        for v in u + 1..self.task.last + 1 {
            self.try_pair(u, v);
            if self.phase != Phase::Going {
                return;
            }
        }
    }

    // u with all its later points, if it is of the layer after the finished ones.
    fn try_point(&mut self, u: usize)
        requires { (u ≤ self.old.task.last) × On self.old }
        ensures { Went (λ t. point_of t u) self.old self.new }
    {
        if usize::from(self.reached[u].level) == self.finished + 1 {
            self.try_later(u);
        }
    }

    // The points of a layer, in list order.
    fn try_layer(&mut self)
        requires { On self.old }
        ensures { Went (λ t. in_order (point_of t) (t.last + 1) 0) self.old self.new }
    {
        for u in 0..self.task.last + 1 {
            self.try_point(u);
            if self.phase != Phase::Going {
                return;
            }
        }
    }

    // The whole search, layer after layer. The loop counts in `finished`, which each step reads and the answer is made of: a `for` would
    // have a second count, and its law would say besides that the two agree.
    fn run(&mut self)
        requires { (self.old.finished ≡ 0) × (going self.old.phase ≡ true) }
        ensures { Ran (λ t. in_order (λ i. layer_of t) t.last 0) self.old self.new }
    {
        while self.finished < self.task.last {
            self.try_layer();
            if self.phase != Phase::Going {
                return;
            }
            self.finished += 1;
        }
    }

    // Writes the ends of the way to the last point, by parents: `count` Lines, from the last to the first. A `fold` would carry the point,
    // and write the output beside it.
    fn trace(&self, count: usize, out: &mut [f64])
        requires { (3 * count ≤ length out.old) × Within self.now.task.last (parents self.now.reached) }
        ensures { out.new ≡ sets out.old 0 (flat (numbers_at self.now.task.points.now) (back (parents self.now.reached) count self.now.task.last [])) }
    {
        let mut v = self.task.last;
        for k in (0..count).rev() {
            put_point(out, 3 * k, point_at(self.task.points, v));
            v = usize::from(self.reached[v].parent);
        }
    }
}

// What the call answers beside the ends: its count of Lines, the pairs tested, and a lower bound of the count.
#[derive(Clone, Copy)]
pub struct Counts {
    pub count: usize,
    pub tested: u64,
    pub bound: usize,
}

// The fewest straights that the budget finds. The cut is the best so far: it is asked for only where no way was found.
fn find(task: Task, out: &mut [f64]) -> Counts
    requires { (task.last ≡ last_of task.points.now) × (1 ≤ task.last) × (3 * task.last ≤ length out.old) }
    ensures { Gave task.entry.points.now (fewest_of task.entry.points.now task.entry.tolerance task.entry.budget) out.old out.new result }
{
    let mut s = Search::new(task);
    s.run();
    let bound = s.finished + 1;
    let count = if s.phase == Phase::Arrived {
        s.trace(bound, out);
        bound
    } else {
        task.cut(0, task.last, out, 0)
    };
    Counts {
        count,
        tested: s.tested,
        bound,
    }
}

// The first row that a call falls under, or what the search is asked. Any budget is accepted, 0 too. The arguments are C's, here and in
// the call.
#[tactic(auto, unfolding(crate::specs::Calls::straights_rows, geo::specs::Outcome::refusal, geo::specs::Domain::whole))]
fn check_straights<'a>(
    points: &'a [f64],
    tolerance: f64,
    budget: u64,
    room: usize,
) -> Result<Task<'a>, Refusal>
    ensures row { refused_by result ≡ refusal (straights_rows points.now tolerance room) }
    ensures same { IfOk result (λ task. (task.points.now ≡ points.now) × (task.tolerance ≡ tolerance) × (task.budget ≡ budget) × (task.last ≡ last_of points.now)) }
{
    if points.len() % 3 != 0 {
        return Err(Refusal::NotWhole);
    }
    if room % 3 != 0 {
        return Err(Refusal::NotWhole);
    }
    let n = points.len() / 3;
    if n < Task::LEAST_POINTS {
        return Err(Refusal::TooMany);
    }
    if Task::MOST_POINTS < n {
        return Err(Refusal::TooMany);
    }
    if !all_coordinates(points) {
        return Err(Refusal::BadNumber);
    }
    if !is_tolerance(tolerance) {
        return Err(Refusal::BadTolerance);
    }
    if room / 3 < n - 1 {
        return Err(Refusal::NoRoom);
    }
    Ok(Task {
        points,
        tolerance,
        last: n - 1,
        budget,
    })
}

// Finds the fewest Lines from the first point to the last, each pair's line deviation below the tolerance, and writes each
// Line's end point to the front of the output.
pub fn fewest_straights(
    points: &[f64],
    tolerance: f64,
    budget: u64,
    out: &mut [f64],
) -> Result<Counts, Refusal>
    ensures says { outcome result ≡ straights_answer (straights_call points.now tolerance budget (length out.old)) }
    ensures leaves { out.new ≡ left (flat (numbers_at points.now)) out.old (ends_given (straights_call points.now tolerance budget (length out.old))) }
{
    let task = check_straights(points, tolerance, budget, out.len())?;
    Ok(find(task, out))
}
