// The search of src/geo/algo/simplify.rs. It divides only where a point could be farther than those before it.
ghost use Rattle.std.specs.Prelude.{◌≡◌, ◌+◌, ◌*◌, ◌<◌, length};
ghost use Rattle.floats.specs.Ops.{◌≺◌};
ghost use Rattle.geo.specs.Lent.{point_at};
ghost use Rattle.farthest.specs.Measure.{chord_of, to_line, measure_of};
ghost use Rattle.farthest.specs.Farthest.{on_chord, farther, farthest_in};
ghost use Rattle.farthest.specs.Search.{spread_of, square_of_spread, Sound};

use crate::ends::Ends;
use geo::lists::Stretch;
use geo::types::{Point, Point3D};
use segment::coordinates::Coordinates;
use segment::segment::{DEGENERATE, Segment};

// Which distance of a point counts: in x and y that to the endless line through the ends of its range, or that to the segment
// between them; or in x, y and z that to the segment.
#[derive(Clone, Copy)]
pub enum Ruler {
    Line,
    Segment,
    Space,
}

// The chord of a range, worked out once for all the points between. Distances are measured in x and y. subdivision's `Chord` is of points
// of the plane, and degenerate below another limit.
#[derive(Clone, Copy)]
pub struct Chord {
    pub start: Point3D,
    pub dx: f64,
    pub dy: f64,
    pub square: f64,
}

impl Chord {
    // A chord is itself the value of its two ends, and so takes them as two.
    #[tactic(auto, unfolding(crate::specs::Measure::chord_of))]
    pub fn new(a: Point3D, b: Point3D) -> Self
        ensures { result ≡ chord_of a b }
    {
        let dx = b.x - a.x;
        let dy = b.y - a.y;
        Self {
            start: a,
            dx,
            dy,
            square: dx * dx + dy * dy,
        }
    }

    // What the distance of p to the endless line grows with: the dividend of its square.
    pub fn spread(self, p: Point3D) -> f64
        ensures { result ≡ spread_of self p }
    {
        let x = p.x - self.start.x;
        let y = p.y - self.start.y;
        if self.square < DEGENERATE {
            return x * x + y * y;
        }
        let cross = x * self.dy - y * self.dx;
        cross * cross
    }

    // The squared distance of a point with that spread.
    pub fn distance_squared(self, spread: f64) -> f64
        ensures { result ≡ square_of_spread self spread }
    {
        if self.square < DEGENERATE {
            return spread;
        }
        spread / self.square
    }
}

// The first farthest point of a range, by the squared distance: the range's start with 0 where none lies off the chord.
#[derive(Clone, Copy)]
pub struct Farthest {
    pub square: f64,
    pub index: usize,
}

impl Farthest {
    // What counts before any point is looked at: the range's start, on the chord.
    fn new(start: usize) -> Self
        ensures { result ≡ on_chord start }
    {
        Self {
            square: 0.0,
            index: start,
        }
    }

    // Of equal farthest points the first counts, so a later point has to be farther. No logical operator: of two points it takes one.
    fn or(self, square: f64, index: usize) -> Self
        ensures { result ≡ farther square index self }
    {
        if square > self.square {
            return Self { square, index };
        }
        self
    }

    // A range is cut only if the squared distance is strictly above the limit, tolerance squared.
    pub fn cuts(self, limit: f64) -> bool
        ensures { result ≡ (limit ≺ self.square) }
    {
        self.square > limit
    }
}

// A search for the first farthest point off a chord. `top` is the greatest spread met: a point whose spread is not above it is no
// farther than `best`, so that few points cost a division.
#[derive(Clone, Copy)]
struct Search {
    chord: Chord,
    top: f64,
    best: Farthest,
    ghost sound: { Sound chord top best },
}

impl Search {
    // Below every spread, which is a square or a sum of squares: the first point is measured.
    const BELOW_ALL: f64 = -1.0;

    fn new(chord: Chord, start: usize) -> Self
        ensures { (result.chord ≡ chord) × (result.best ≡ on_chord start) }
    {
        Self {
            chord,
            top: Search::BELOW_ALL,
            best: Farthest::new(start),
        }
    }

    // The search after a look at the point p at index i.
    fn look(self, p: Point3D, i: usize) -> Self
        ensures { (result.chord ≡ self.chord) × (result.best ≡ farther (to_line self.chord p) i self.best) }
    {
        let chord = self.chord;
        let spread = chord.spread(p);
        if spread > self.top {
            let best = self.best;
            let best = best.or(chord.distance_squared(spread), i);
            return Self {
                chord,
                top: spread,
                best,
            };
        }
        self
    }
}

// The first farthest of the items strictly between start and end from the endless line; z is not measured, and not each item is
// a candidate. The ends stand beside the items, which are of any form: a `Stretch` is of points. A `fold` would
// carry the search and be no plainer, as in `farthest_from_each`.
pub fn farthest_from_line<T: Ends>(track: T, start: usize, end: usize) -> Farthest
    requires { (start < T.size track) × (end < T.size track) }
    ensures { result ≡ farthest_in T.measure (T.item track) start end }
{
    let chord = Chord::new(track.end(start), track.end(end));
    let mut search = Search::new(chord, start);
    for i in start + 1..end {
        if let Some(p) = track.candidate(i) {
            search = search.look(p, i);
        }
    }
    search.best
}

// The first farthest of the points strictly inside a stretch from the segment between its ends, two points at a time, then the
// last where one is left. The index is counted by hand: it goes by two, and tells at the end whether one is left.
fn farthest_from_segment<V: Coordinates>(stretch: Stretch) -> Farthest
    ensures { result ≡ farthest_in V.squared (point_at stretch.entry.points.now) stretch.entry.start stretch.entry.end }
{
    let segment = Segment::<V>::new(stretch.first(), stretch.last());
    let mut best = Farthest::new(stretch.start);
    let mut i = stretch.start + 1;
    while i + 1 < stretch.end {
        let (one, next) = segment.both(stretch.at(i), stretch.at(i + 1));
        best = best.or(one, i);
        best = best.or(next, i + 1);
        i += 2;
    }
    if i < stretch.end {
        return best.or(segment.distance_squared(stretch.at(i)), i);
    }
    best
}

// The same by any coordinates, point by point: in space two at a time take longer.
fn farthest_from_each<V: Coordinates>(stretch: Stretch) -> Farthest
    ensures { result ≡ farthest_in V.squared (point_at stretch.entry.points.now) stretch.entry.start stretch.entry.end }
{
    let segment = Segment::<V>::new(stretch.first(), stretch.last());
    let mut best = Farthest::new(stretch.start);
    for i in stretch.start + 1..stretch.end {
        best = best.or(segment.distance_squared(stretch.at(i)), i);
    }
    best
}

// By any distance, which is looked up once for the stretch and not for each point. A `match` stays: a ruler is what a rule of a
// fit carries, and a `dyn` in its place would be no plainer, and a call that no compiler sees through.
pub fn farthest_between(ruler: Ruler, stretch: Stretch) -> Farthest
    ensures { result ≡ farthest_in (measure_of ruler) (point_at stretch.entry.points.now) stretch.entry.start stretch.entry.end }
{
    match ruler {
        Ruler::Line => farthest_from_line(stretch, stretch.start, stretch.end),
        Ruler::Segment => farthest_from_segment::<Point>(stretch),
        Ruler::Space => farthest_from_each::<Point3D>(stretch),
    }
}
