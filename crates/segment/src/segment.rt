// How far a point lies from a segment. A foot that is clamped costs no division.
ghost use Rattle.std.specs.Prelude.{◌≡◌};
ghost use Rattle.geo.specs.declared.types.Point3D.{Point3D};
ghost use Rattle.segment.specs.Segment.{dot_on, from_foot};
ghost use Rattle.segment.specs.Saved.{is_inside, Laid};

use crate::coordinates::Coordinates;
use floats::float::clamp;
use geo::types::Point3D;

// A chord whose square is below this counts as its start alone.
pub const DEGENERATE: f64 = 1e-12;

// The segment of a range, worked out once for all the points between.
#[derive(Clone, Copy)]
pub struct Segment<V> {
    start: V,
    chord: V,
    end: V,
    square: f64,
    level: f64,
}

impl<V: Coordinates> Segment<V> {
    // A segment is itself the value of its two ends, and so takes them as two. Its end is start + 1 × (end − start), which rounding
    // can part from b. The level of the start is 0, or a NaN where the chord's square is not finite: no test by a NaN holds.
    pub fn new(a: Point3D, b: Point3D) -> Self
        ensures { Laid V.axes V.make a b result }
    {
        let start = V::of(a);
        let chord = V::of(b).minus(start);
        let square = chord.dot(chord);
        Self {
            start,
            chord,
            end: start.plus(chord),
            square,
            level: 0.0 * square,
        }
    }

    // From the foot with parameter t.
    fn from_foot(self, p: V, t: f64) -> f64
        ensures { (a b q : Point3D) → Laid V.axes V.make a b self → p ≡ V.make (λ c. c q) → result ≡ from_foot V.axes a b q t }
    {
        let off = p.minus(self.start.beyond(t, self.chord));
        off.dot(off)
    }

    // The squared distance of p. Only a foot strictly inside costs a division; the last return is for numbers that are not finite.
    pub fn distance_squared(self, p: Point3D) -> f64
        ensures { (a b : Point3D) → Laid V.axes V.make a b self → result ≡ V.squared a b p }
    {
        let p = V::of(p);
        let off = p.minus(self.start);
        if self.square < DEGENERATE {
            return off.dot(off);
        }
        let along = off.dot(self.chord);
        if along > self.level {
            if along < self.square {
                return self.from_foot(p, along / self.square);
            }
            let off = p.minus(self.end);
            return off.dot(off);
        }
        if along <= self.level {
            return off.dot(off);
        }
        self.from_foot(p, clamp(along / self.square, 0.0, 1.0))
    }

    // The dot product of p's offset from the start with the chord.
    fn along(self, p: V) -> f64
        ensures { (a b q : Point3D) → Laid V.axes V.make a b self → p ≡ V.make (λ c. c q) → result ≡ dot_on V.axes a q b }
    {
        p.minus(self.start).dot(self.chord)
    }

    // Whether the foot of a point with that dot product lies strictly inside. One test after the other, here and in `both`: joined
    // by `&&` the search of a stretch took a quarter longer.
    fn is_inside(self, along: f64) -> bool
        ensures { result ≡ is_inside self.square self.level along }
    {
        if self.square < DEGENERATE {
            return false;
        }
        if self.level < along {
            return along < self.square;
        }
        false
    }

    // Two points at once: where both feet lie inside, as most do, a machine works out two distances side by side.
    pub fn both(self, p: Point3D, q: Point3D) -> (f64, f64)
        ensures { (a b : Point3D) → Laid V.axes V.make a b self → (result.0 ≡ V.squared a b p) × (result.1 ≡ V.squared a b q) }
    {
        let v = V::of(p);
        let w = V::of(q);
        let s = self.along(v);
        let t = self.along(w);
        if self.is_inside(s) {
            if self.is_inside(t) {
                return (
                    self.from_foot(v, s / self.square),
                    self.from_foot(w, t / self.square),
                );
            }
        }
        (self.distance_squared(p), self.distance_squared(q))
    }
}
