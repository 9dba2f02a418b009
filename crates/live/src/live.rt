// The live thinner. A refused call leaves its state as it was.
ghost use Rattle.std.specs.Prelude.{◌≡◌, ◌||◌, ◌+◌, ◌*◌, ◌-◌, ◌<◌, ◌≤◌, length, ltb};
ghost use Rattle.std.proofs.lemmas.List.Edits.{sets};
ghost use Rattle.floats.specs.Ops.{◌≺◌};
ghost use Rattle.geo.specs.Lent.{flat, triple};
ghost use Rattle.geo.specs.Outcome.{refusal, unless};
ghost use Rattle.geo.specs.Refusal.{refused_by};
ghost use Rattle.deviations.specs.Line.{line_deviation};
ghost use Rattle.farthest.specs.Measure.{line_sq};
ghost use Rattle.live.specs.Thinner.{slot, started, behind, cutting, forgotten};
ghost use Rattle.live.specs.Calls.{feed, retune, close, start_rows, start_outcome, start_state, state_rows, live_rows, live_call, Fed, Tuned};
ghost use Rattle.live.specs.Replay.{ends_in, Pushed, Replays};

use farthest::farthest::{Ruler, farthest_between};
use floats::root::is_root_below;
use geo::domain::{all_coordinates, is_tolerance, point3_in};
use geo::lent::{point_at, put_point};
use geo::lists::Stretch;
use geo::refusal::Refusal;
use geo::types::Point3D;

// The first `count` slots hold points, three numbers each: the anchor, and the points held after it. What later slots hold does
// not matter, but it is checked as all numbers of a state are. An array with a count beside it, since C lends both, and there is no heap.
#[derive(Clone, Copy)]
pub struct Live {
    pub tolerance: f64,
    pub points: [f64; Live::NUMBERS],
    pub count: usize,
    pub closed: bool,
}

// A start that is refused: the cause, and the thinner of that tolerance all the same, which each call refuses.
#[derive(Clone, Copy)]
pub struct RefusedStart {
    pub cause: Refusal,
    pub state: Live,
}

impl Live {
    // "an anchor and up to 64 points after it"
    pub const SLOTS: usize = 65;

    // Three numbers a slot.
    pub const NUMBERS: usize = 195;

    // "Its most is 63 ends."
    pub const MOST: usize = 63;

    // A thinner of any tolerance, to which no point was fed. `start` refuses a tolerance that is out of the domain, and each call
    // refuses a thinner that has such a one.
    #[tactic(auto, unfolding(crate::specs::Thinner::started))]
    pub fn new(tolerance: f64) -> Self
        ensures { result ≡ started tolerance }
    {
        Self {
            tolerance,
            points: [0.0; Live::NUMBERS],
            count: 0,
            closed: false,
        }
    }

    // A thinner to which no point was fed.
    #[tactic(auto, unfolding(crate::specs::Calls::start_rows, geo::specs::Outcome::refusal, geo::specs::Outcome::unless))]
    pub fn start(tolerance: f64) -> Result<Live, RefusedStart>
        ensures says { start_outcome result ≡ unless (refusal (start_rows tolerance)) (started tolerance) }
        ensures state { start_state result ≡ started tolerance }
    {
        let state = Live::new(tolerance);
        if !is_tolerance(tolerance) {
            return Err(RefusedStart {
                cause: Refusal::BadTolerance,
                state,
            });
        }
        Ok(state)
    }

    // The last point held, or the anchor where it is alone. That a point is held and that no more than the slots are in use is asked here and
    // below: C lends any count, and the calls refuse it, so no field of the type can say it.
    #[tactic(auto, unfolding(crate::specs::Thinner::slot))]
    fn last(&self) -> Point3D
        requires { (1 ≤ self.now.count) × (self.now.count ≤ 65) }
        ensures { result ≡ slot self.now (self.now.count - 1) }
    {
        point_at(&self.points, self.count - 1)
    }

    // Holds p behind the other points.
    #[tactic(auto, unfolding(crate::specs::Thinner::behind, crate::specs::Thinner::put))]
    fn hold(&mut self, p: Point3D)
        requires { self.old.count < 65 }
        ensures { self.new ≡ behind self.old p }
    {
        put_point(&mut self.points, 3 * self.count, p);
        self.count += 1;
    }

    // Whether the line from the anchor to the last point stays below the tolerance from the points between, if there are any. As in
    // get_polyline_line_deviation it is the root that is below: squares would let a point pass whose root is the tolerance.
    #[tactic(auto, unfolding(crate::specs::Thinner::slot, deviations::specs::Line::line_deviation, deviations::specs::Line::rooted))]
    fn goes_on(&self) -> bool
        requires { (1 ≤ self.now.count) × (self.now.count ≤ 65) }
        ensures { result ≡ ltb self.now.count 3 || ((line_deviation line_sq (slot self.now) 0 (self.now.count - 1)).dist ≺ self.now.tolerance) }
    {
        if self.count < 3 {
            return true;
        }
        let held = Stretch {
            points: &self.points,
            start: 0,
            end: self.count - 1,
        };
        is_root_below(farthest_between(Ruler::Line, held).square, self.tolerance)
    }

    // Hands out the last point, which becomes the anchor, and holds p alone after it.
    #[tactic(auto, unfolding(crate::specs::Thinner::cutting, crate::specs::Thinner::put))]
    fn cut(&mut self, p: Point3D) -> Point3D
        requires { (1 ≤ self.old.count) × (self.old.count ≤ 65) }
        ensures { (result ≡ slot self.old (self.old.count - 1)) × (self.new ≡ cutting self.old p) }
    {
        let last = self.last();
        put_point(&mut self.points, 0, last);
        put_point(&mut self.points, 3, p);
        self.count = 2;
        last
    }

    // One point fed to an accepted state. It is held first, so that the line to it can be measured; where that line leaves the points
    // between, its slot gets back what it had.
    fn push(&mut self, p: Point3D) -> Option<Point3D>
        requires { self.old.count ≤ 65 }
        ensures { Pushed self.old self.new p result }
    {
        if self.count >= Live::SLOTS {
            return Some(self.cut(p));
        }
        let n = self.count;
        let free = point_at(&self.points, n);
        self.hold(p);
        if self.goes_on() {
            return None;
        }
        put_point(&mut self.points, 3 * n, free);
        self.count = n;
        Some(self.cut(p))
    }

    // Why the state is refused, if it is; `inside` and `tuned` say that a call's own numbers and its own tolerance are in the domain.
    #[tactic(auto, unfolding(crate::specs::Calls::state_rows, geo::specs::Outcome::refusal))]
    fn refuse(&self, inside: bool, tuned: bool) -> Result<(), Refusal>
        ensures { refused_by result ≡ refusal (state_rows self.now inside tuned) }
    {
        if self.count > Live::SLOTS {
            return Err(Refusal::TooMany);
        }
        if !(all_coordinates(&self.points) && inside) {
            return Err(Refusal::BadNumber);
        }
        if !(is_tolerance(self.tolerance) && tuned) {
            return Err(Refusal::BadTolerance);
        }
        if self.closed {
            return Err(Refusal::Closed);
        }
        Ok(())
    }

    // Feeds p: the previous point is handed out where the line to p leaves the points between, or all slots are full.
    pub fn feed(&mut self, p: Point3D) -> Result<Option<Point3D>, Refusal>
        ensures { Fed (live_call self.old (feed p)) self.old self.new result }
    {
        self.refuse(point3_in(p), true)?;
        Ok(self.push(p))
    }

    // Hands out the last point fed.
    pub fn close(&mut self) -> Result<Option<Point3D>, Refusal>
        ensures { Fed (live_call self.old close) self.old self.new result }
    {
        self.refuse(true, true)?;
        self.closed = true;
        if self.count < 2 {
            return Ok(None);
        }
        Ok(Some(self.last()))
    }

    // All but the anchor forgotten, and a new tolerance.
    fn forget(&mut self, tolerance: f64)
        ensures { self.new ≡ forgotten self.old tolerance }
    {
        self.tolerance = tolerance;
        if self.count > 0 {
            self.count = 1;
        }
    }

    // Feeds the held points again from the anchor, and writes the ends: a `fold` would carry their count, the state and the output. The
    // tolerance and the output, or its room, are C's arguments, here and below.
    fn replay(&mut self, tolerance: f64, out: &mut [f64]) -> usize
        requires { (self.old.count ≤ 65) × (189 ≤ length out.old) }
        ensures { Replays self.old self.new tolerance out.old out.new result }
    {
        let n = self.count;
        let points = self.points;
        self.forget(tolerance);
        let mut count = 0;
        for i in 1..n {
            let end = self.push(point_at(&points, i));
            count = put_end(out, count, end);
        }
        count
    }

    // Why a new tolerance is refused, if it is.
    fn refuse_retune(&self, tolerance: f64, room: usize) -> Result<(), Refusal>
        ensures { refused_by result ≡ refusal (live_rows self.now (retune tolerance room)) }
    {
        if room % 3 != 0 {
            return Err(Refusal::NotWhole);
        }
        self.refuse(true, is_tolerance(tolerance))?;
        if room / 3 < Live::MOST {
            return Err(Refusal::NoRoom);
        }
        Ok(())
    }

    // Sets a new tolerance, and writes the ends that the held points come to under it.
    pub fn retune(&mut self, tolerance: f64, out: &mut [f64]) -> Result<usize, Refusal>
        ensures { Tuned (live_call self.old (retune tolerance (length out.old))) self.old self.new out.old out.new result }
    {
        self.refuse_retune(tolerance, out.len())?;
        Ok(self.replay(tolerance, out))
    }
}

// Writes an end, if there is one, behind k others, and answers how many there are then.
#[tactic(auto, unfolding(crate::specs::Replay::ends_in, geo::specs::Lent::flat))]
fn put_end(out: &mut [f64], k: usize, end: Option<Point3D>) -> usize
    requires { 3 * (k + length (ends_in end)) ≤ length out.old }
    ensures { (result ≡ k + length (ends_in end)) × (out.new ≡ sets out.old (3 * k) (flat triple (ends_in end))) }
{
    match end {
        Some(p) => {
            put_point(out, 3 * k, p);
            k + 1
        }
        None => k,
    }
}
