// src/geo/algo/fitting.rs: the arc's deviation, the traversal and the two arc trials.
ghost use Rattle.std.specs.Prelude.{◌≡◌, true, false, ◌<◌, ◌≤◌};
ghost use Rattle.std.specs.Float.Ieee.{is_nan};
ghost use Rattle.std.specs.Int.Signed.{mag};
ghost use Rattle.floats.specs.Ops.{◌⊖◌, ◌≺◌};
ghost use Rattle.floats.specs.Root.{root_of};
ghost use Rattle.geo.specs.Domain.{most_points};
ghost use Rattle.geo.specs.Vector.{flatten, length_of};
ghost use Rattle.geo.specs.Lent.{point_at};
ghost use Rattle.arc.specs.Direction.{clockwise};
ghost use Rattle.circle.specs.Three.{radius_from};
ghost use Rattle.trial.specs.declared.trial.Spoke.{Spoke};
ghost use Rattle.trial.specs.Deviation.{spoke_of, sagitta_of, ends_of, step_of, arc_deviation};
ghost use Rattle.trial.specs.Traversal.{offset_of, cross2, dot2, at_centre, half_of, turned, just_behind, just_ahead, passes_by, traverses};
ghost use Rattle.trial.specs.Trial.{sharp_turn, sharp_at, closed_range, measured_by, going_round, trial_of, trial_three, trial_least, or_else, try_arcs};

use arc::arc::turn;
use circle::circle::{Center, Circle, Deviation, center_through, to_bisector};
use floats::float::{abs, clamp, max};
use floats::root::sqrt;
use geo::lists::Stretch;
use geo::point::get_length;
use geo::types::{Point, Point3D};

// A point seen from a centre: its offset and its distance.
#[derive(Clone, Copy)]
pub struct Spoke {
    pub x: f64,
    pub y: f64,
    pub len: f64,
}

impl Spoke {
    // A step or a spoke shorter than this has no direction.
    const SHORT: f64 = 1e-9;

    // The root of this is above SHORT: a step whose square is at least this is not short.
    const SHORT_SQUARE: f64 = 1e-17;

    // Of the centre m and the point p: the spoke is itself the value of both.
    #[tactic(auto, unfolding(crate::specs::Deviation::spoke_of))]
    fn new(m: Point, p: Point3D) -> Self
        ensures { result ≡ spoke_of m p }
    {
        let x = p.x - m.x;
        let y = p.y - m.y;
        Self {
            x,
            y,
            len: get_length(x, y),
        }
    }
}

// A step along an arc: the spokes to its two ends, and the arc's radius.
#[derive(Clone, Copy)]
struct Step {
    s: Spoke,
    t: Spoke,
    r: f64,
}

impl Step {
    // How far the arc bulges beyond the step.
    #[tactic(auto, unfolding(crate::specs::Deviation::sagitta_of, crate::specs::Deviation::cosine))]
    fn sagitta(self) -> f64
        ensures { result ≡ sagitta_of self.r self.s self.t }
    {
        let s = self.s;
        let t = self.t;
        if s.len < Spoke::SHORT || t.len < Spoke::SHORT {
            return 0.0;
        }
        let c = clamp((s.x * t.x + s.y * t.y) / (s.len * t.len), -1.0, 1.0);
        self.r * (1.0 - sqrt((1.0 + c) / 2.0))
    }

    // The greater distance of the two ends from the circle.
    #[tactic(auto, unfolding(crate::specs::Deviation::ends_of))]
    fn ends_off(self) -> f64
        ensures { result ≡ ends_of self.r self.s self.t }
    {
        max(abs(self.s.len - self.r), abs(self.t.len - self.r))
    }

    // Its deviation, where its length is `len`.
    #[tactic(auto, unfolding(crate::specs::Deviation::step_of))]
    fn deviation(self, len: f64) -> f64
        ensures { result ≡ step_of self.r len self.s self.t }
    {
        if len < Spoke::SHORT {
            return abs(self.s.len - self.r);
        }
        let e = self.ends_off();
        if len > 2.0 * self.r {
            return e;
        }
        max(self.sagitta(), e)
    }

    // Its deviation, where it goes from p to q; they serve this and `strays` alone, so they are no fields. The radius is the root of
    // `square`: a step that is not short, and no longer than the radius, needs no root.
    fn deviation_between(self, p: Point3D, q: Point3D, square: f64) -> f64
        requires { self.r ≡ root_of square }
        ensures { result ≡ step_of self.r (length_of (q.x ⊖ p.x) (q.y ⊖ p.y)) self.s self.t }
    {
        let dx = q.x - p.x;
        let dy = q.y - p.y;
        let l = dx * dx + dy * dy;
        if Spoke::SHORT_SQUARE <= l && l <= square {
            return max(self.sagitta(), self.ends_off());
        }
        self.deviation(sqrt(l))
    }

    // Whether the end of the step from p to q is off the circle by the tolerance or more, and the step not short. Its deviation is
    // no less then, whatever its sagitta.
    fn strays(self, p: Point3D, q: Point3D, tolerance: f64) -> bool
        ensures { result ≡ true → (is_nan (step_of self.r (length_of (q.x ⊖ p.x) (q.y ⊖ p.y)) self.s self.t) ≡ false) × ((step_of self.r (length_of (q.x ⊖ p.x) (q.y ⊖ p.y)) self.s self.t ≺ tolerance) ≡ false) }
    {
        let dx = q.x - p.x;
        let dy = q.y - p.y;
        Spoke::SHORT_SQUARE <= dx * dx + dy * dy && tolerance <= abs(self.t.len - self.r)
    }
}

// The greatest deviation of a step from the arc, and the first step that has it, 0 where there is none above 0. A
// point's distance from the centre is worked out once: it serves the step before and the step after. So a `for`: a `fold` would carry
// three values.
pub fn arc_deviation(stretch: Stretch, arc: Circle) -> Deviation
    ensures { result ≡ arc_deviation arc.center arc.radius (point_at stretch.entry.points.now) stretch.entry.start stretch.entry.end }
{
    let mut worst = Deviation {
        dist: 0.0,
        index: 0,
    };
    let mut p = stretch.first();
    let mut s = Spoke::new(arc.center, p);
    for i in stretch.start..stretch.end {
        let q = stretch.at(i + 1);
        let t = Spoke::new(arc.center, q);
        let step = Step {
            s,
            t,
            r: arc.radius,
        };
        worst = worst.or(step.deviation(get_length(q.x - p.x, q.y - p.y)), i);
        p = q;
        s = t;
    }
    worst
}

// The offset of p from m. It, `cross` and `dot` serve `flatten` too.
#[tactic(auto, unfolding(crate::specs::Traversal::offset_of))]
pub fn offset(m: Point, p: Point3D) -> Point
    ensures { result ≡ offset_of m p }
{
    Point {
        x: p.x - m.x,
        y: p.y - m.y,
    }
}

// The vectors of a product, and below a cross beside a dot, are operands: a struct of two would be made for one call.
#[tactic(auto, unfolding(crate::specs::Traversal::cross2))]
pub fn cross(p: Point, q: Point) -> f64
    ensures { result ≡ cross2 p q }
{
    p.x * q.y - p.y * q.x
}

#[tactic(auto, unfolding(crate::specs::Traversal::dot2))]
pub fn dot(p: Point, q: Point) -> f64
    ensures { result ≡ dot2 p q }
{
    p.x * q.x + p.y * q.y
}

// Whether q lies in half 0 as seen from q0.
#[tactic(auto, unfolding(crate::specs::Traversal::half_of))]
fn half(q0: Point, q: Point) -> bool
    ensures { result ≡ half_of q0 q }
{
    let c = cross(q0, q);
    c > 0.0 || (c == 0.0 && dot(q0, q) > 0.0)
}

// W after one step more, of cross c, from half h to half k; true is half 0. As two conjunctions of three tests the trial was
// slower by a twentieth: the second tested `h` again.
#[tactic(auto, unfolding(crate::specs::Traversal::turned))]
fn turn_by(w: i64, h: bool, k: bool, c: f64) -> i64
    requires { mag w < most_points }
    ensures { result ≡ turned h k c w }
{
    if h {
        if !k {
            if c < 0.0 {
                return w - 1;
            }
        }
        return w;
    }
    if k {
        if c >= 0.0 {
            return w + 1;
        }
    }
    w
}

#[tactic(auto, unfolding(crate::specs::Traversal::just_behind))]
fn just_behind(c: f64, d: f64) -> bool
    ensures { result ≡ just_behind c d }
{
    d > 0.0 && c < 0.0 && -c <= Trial::NEAR * d
}

#[tactic(auto, unfolding(crate::specs::Traversal::just_ahead))]
fn just_ahead(c: f64, d: f64) -> bool
    ensures { result ≡ just_ahead c d }
{
    d > 0.0 && c >= 0.0 && c <= Trial::NEAR * d
}

// Whether less than a whole turn was gone, by W and by where the last point lies.
fn passes(w: i64, q0: Point, q: Point) -> bool
    ensures { result ≡ passes_by w q0 q }
{
    let c = cross(q0, q);
    let d = dot(q0, q);
    if w == 0 {
        return !just_behind(c, d);
    }
    if w == -1 {
        return !just_ahead(c, d);
    }
    false
}

#[tactic(auto, unfolding(crate::specs::Traversal::at_centre))]
fn at_centre(q: Point) -> bool
    ensures { result ≡ at_centre q }
{
    q.x == 0.0 && q.y == 0.0
}

// Whether the points go round m by less than a whole turn. A `for`: it ends at a point in the centre, and a `try_fold` would carry three
// values. It is asked what `Trials` has, and no more of a trial than its stretch.
fn traversal_passes(stretch: Stretch, m: Point) -> bool
    requires { (stretch.start ≤ stretch.end) × (stretch.end < most_points) }
    ensures { result ≡ traverses m (point_at stretch.entry.points.now) stretch.entry.start stretch.entry.end }
{
    let q0 = offset(m, stretch.first());
    if at_centre(q0) {
        return false;
    }
    let mut q = q0;
    let mut h = half(q0, q0);
    let mut w: i64 = 0;
    for i in stretch.start..stretch.end {
        let n = offset(m, stretch.at(i + 1));
        if at_centre(n) {
            return false;
        }
        let k = half(q0, n);
        let c = cross(q, n);
        w = turn_by(w, h, k, c);
        q = n;
        h = k;
    }
    passes(w, q0, q)
}

// Whether they go clockwise. A `for`: the sum is rounded after each step, from the first on, and a step needs the point before it.
fn goes_clockwise(stretch: Stretch, m: Point) -> bool
    ensures { result ≡ clockwise (λ i. flatten (point_at stretch.entry.points.now i)) stretch.entry.start stretch.entry.end m }
{
    let mut sum = 0.0;
    let mut p = stretch.first().truncate();
    for i in stretch.start..stretch.end {
        let q = stretch.at(i + 1).truncate();
        sum += turn(m, p, q);
        p = q;
    }
    sum < 0.0
}

// Three points one after the other, which no other function takes.
#[tactic(auto, unfolding(crate::specs::Trial::sharp_turn))]
fn sharp_turn(a: Point3D, b: Point3D, c: Point3D) -> bool
    ensures { result ≡ sharp_turn a b c }
{
    let dx1 = b.x - a.x;
    let dy1 = b.y - a.y;
    let dx2 = c.x - b.x;
    let dy2 = c.y - b.y;
    let len1 = get_length(dx1, dy1);
    let len2 = get_length(dx2, dy2);
    len1 > Spoke::SHORT
        && len2 > Spoke::SHORT
        && (dx1 * dx2 + dy1 * dy2) / (len1 * len2) < Trial::SHARP
}

// Whether the points turn sharply at `split`, strictly between the stretch's ends.
#[tactic(auto, unfolding(crate::specs::Trial::sharp_at))]
fn is_sharp(stretch: Stretch, split: usize) -> bool
    ensures { result ≡ sharp_at (point_at stretch.entry.points.now) stretch.entry.start stretch.entry.end split }
{
    stretch.start < split
        && split < stretch.end
        && sharp_turn(
            stretch.at(split - 1),
            stretch.at(split),
            stretch.at(split + 1),
        )
}

// What an arc trial found: the arc's centre, its direction and its worst step.
#[derive(Clone, Copy)]
pub struct Trial {
    pub center: Point,
    pub clockwise: bool,
    pub worst: usize,
}

impl Trial {
    // The cosine of a turn that is sharp is below this.
    const SHARP: f64 = 0.5;

    // A range whose ends are nearer than this is closed.
    const CLOSED: f64 = 1e-6;

    // The root of this is above CLOSED: a range is not closed where the square of its ends' distance is at least this.
    const CLOSED_SQUARE: f64 = 1e-11;

    // How near the last point may come to the first, as a share of a radius.
    const NEAR: f64 = 0.001;
}

// The two trials of a stretch that is not too long, by a tolerance.
#[derive(Clone, Copy)]
struct Trials<'a> {
    stretch: Stretch<'a>,
    tolerance: f64,
    ghost ordered: { stretch.start ≤ stretch.end },
    ghost few: { stretch.end < most_points },
}

impl<'a> Trials<'a> {
    // Whether the deviation of the arc round m is below the tolerance, by its worst step, where `first` is the first point's spoke
    // and its length the radius: the walk ends at the first step that is not. It takes no root where a square decides, which
    // `arc_deviation` cannot: its radius is any. A `for`, as there.
    fn measure(self, m: Point, first: Spoke) -> Option<usize>
        requires { first ≡ spoke_of m (point_at self.stretch.points.now self.stretch.start) }
        ensures { result ≡ measured_by (arc_deviation m (radius_from m (point_at self.entry.stretch.points.now self.entry.stretch.start)) (point_at self.entry.stretch.points.now) self.entry.stretch.start self.entry.stretch.end) self.entry.tolerance }
    {
        let mut worst = Deviation {
            dist: 0.0,
            index: 0,
        };
        let stretch = self.stretch;
        let mut p = stretch.first();
        let mut s = first;
        let r = first.len;
        let square = first.x * first.x + first.y * first.y;
        for i in stretch.start..stretch.end {
            let q = stretch.at(i + 1);
            let t = Spoke::new(m, q);
            let step = Step { s, t, r };
            if step.strays(p, q, self.tolerance) {
                return None;
            }
            worst = worst.or(step.deviation_between(p, q, square), i);
            let ok = worst.dist < self.tolerance;
            if !ok {
                return None;
            }
            p = q;
            s = t;
        }
        if worst.dist < self.tolerance {
            return Some(worst.index);
        }
        None
    }

    // The arc round a centre from which every step is within the tolerance: it passes where it goes less than a whole turn.
    #[tactic(auto, unfolding(crate::specs::Trial::going_round))]
    fn going(self, center: Point, worst: usize) -> Option<Trial>
        ensures { result ≡ going_round (point_at self.entry.stretch.points.now) self.entry.stretch.start self.entry.stretch.end center worst }
    {
        if !traversal_passes(self.stretch, center) {
            return None;
        }
        let clockwise = goes_clockwise(self.stretch, center);
        Some(Trial {
            center,
            clockwise,
            worst,
        })
    }

    // The arc round a fitted centre, moved to the bisector of the stretch's ends. Its radius is measured again from there.
    #[tactic(auto, unfolding(crate::specs::Trial::trial_of, crate::specs::Trial::trial_round, crate::specs::Trial::of_measured))]
    fn round(self, fitted: Point) -> Option<Trial>
        ensures { result ≡ trial_of (point_at self.entry.stretch.points.now) self.entry.stretch.start self.entry.stretch.end self.entry.tolerance fitted }
    {
        let a = self.stretch.first();
        let center = to_bisector(a, self.stretch.last(), fitted);
        let first = Spoke::new(center, a);
        let worst = self.measure(center, first)?;
        self.going(center, worst)
    }

    // By the circle through the stretch's first, second and last point.
    #[tactic(auto, unfolding(crate::specs::Trial::trial_three, crate::specs::Trial::of_circle, circle::specs::Three::through_three, circle::specs::Three::circle_round))]
    fn of_three(self) -> Option<Trial>
        requires { self.stretch.start < self.stretch.end }
        ensures { result ≡ trial_three (point_at self.entry.stretch.points.now) self.entry.stretch.start self.entry.stretch.end self.entry.tolerance }
    {
        let a = self.stretch.first();
        let b = self.stretch.at(self.stretch.start + 1);
        let center = center_through(a, b, self.stretch.last())?;
        self.round(center)
    }

    // By the circle of least squares.
    #[tactic(auto, unfolding(crate::specs::Trial::trial_least, crate::specs::Trial::of_center))]
    fn of_least_squares(self) -> Option<Trial>
        ensures { result ≡ trial_least (point_at self.entry.stretch.points.now) self.entry.stretch.start self.entry.stretch.end self.entry.tolerance }
    {
        let circle = Center::of(self.stretch)?;
        self.round(circle.center)
    }

    // By the first of the two that passes.
    #[tactic(auto, unfolding(crate::specs::Trial::or_else))]
    fn of_either(self) -> Option<Trial>
        requires { self.stretch.start < self.stretch.end }
        ensures { result ≡ or_else (trial_three (point_at self.entry.stretch.points.now) self.entry.stretch.start self.entry.stretch.end self.entry.tolerance) (trial_least (point_at self.entry.stretch.points.now) self.entry.stretch.start self.entry.stretch.end self.entry.tolerance) }
    {
        // `or_else` of std would be no plainer: what its closure gives would need a proof of its own.
        match self.of_three() {
            Some(t) => Some(t),
            None => self.of_least_squares(),
        }
    }
}

// Whether the ends of a range all but meet: it needs no more of a range.
fn is_closed_range(a: Point3D, b: Point3D) -> bool
    ensures { result ≡ closed_range a b }
{
    let dx = a.x - b.x;
    let dy = a.y - b.y;
    let l = dx * dx + dy * dy;
    if Trial::CLOSED_SQUARE <= l {
        return false;
    }
    sqrt(l) < Trial::CLOSED
}

// The arc of the first trial that passes. A sharp turn at the split point or a closed range blocks both trials. What is asked of the
// stretch is a fact of `Trials`, which is made behind both tests; why it is asked of callers, circle::Center::of says.
#[tactic(auto, unfolding(crate::specs::Trial::try_arcs))]
pub fn try_arcs(stretch: Stretch, split: usize, tolerance: f64) -> Option<Trial>
    requires { (stretch.start ≤ stretch.end) × (stretch.end < most_points) }
    ensures { result ≡ try_arcs (point_at stretch.entry.points.now) stretch.entry.start stretch.entry.end split tolerance }
{
    if is_sharp(stretch, split) {
        return None;
    }
    if is_closed_range(stretch.first(), stretch.last()) {
        return None;
    }
    let trials = Trials { stretch, tolerance };
    if stretch.end - stretch.start == 2 {
        return trials.of_either();
    }
    trials.of_least_squares()
}
