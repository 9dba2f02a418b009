// What halving a curve needs of its points. The plane's and the space's operations round in other orders, so each is given
// as it is in the source.
ghost use Rattle.std.specs.Prelude.{ℕ, ◌≡◌, ◌+◌, ◌*◌, ◌≤◌, Bool, List, length, refl, Float};
ghost use Rattle.std.proofs.Common.{arith};
ghost use Rattle.std.proofs.lemmas.List.Edits.{sets};
ghost use Rattle.geo.specs.declared.types.CubicBezier.{CubicBezier};
ghost use Rattle.geo.specs.Lent.{pair, triple};
ghost use Rattle.bezier.specs.declared.bezier.Halves.{Halves};
ghost use Rattle.subdivision.specs.Flatten.{is_flat, halves, is_flat3, halves3};

use crate::subdivision::{get_bezier_flatness_sq, is_flat};
use bezier::bezier::Halves;
use geo::lent::{put_pair, put_point};
use geo::point::midpoint_3d;
use geo::types::{CubicBezier, Point, Point3D};

pub(crate) trait Part: Copy {
    ghost flat: { CubicBezier Self → Float → Bool };

    ghost halved: { CubicBezier Self → Halves Self };

    // how many numbers it is lent as, and which
    ghost width: { ℕ };

    ghost lay: { Self → List Float };

    // Whether a curve is at most so far off its chord. The limit is of the whole call, the curve of one part, so they are two.
    fn is_flat(q: CubicBezier<Self>, tolerance_sq: f64) -> bool
        ensures { result ≡ flat q tolerance_sq };

    // The two parts of a curve, which meet in the middle.
    fn halve(q: CubicBezier<Self>) -> Halves<Self>
        ensures { result ≡ halved q };

    // Writes it at place `at`: the place moves on with each write, so a struct of it and the output would hold the borrow for one.
    fn put(self, out: &mut [f64], at: usize)
        requires { width * (at + 1) ≤ length out.old }
        ensures { out.new ≡ sets out.old (width * at) (lay self) };

    ghost as_wide: { (p : Self) → length (lay p) ≡ width };

    ghost some: { 1 ≤ width };
}

impl Part for Point {
    ghost flat = { is_flat };

    ghost halved = { halves };

    ghost width = { 2 };

    ghost lay = { pair };

    ghost as_wide = { λ p. refl };

    ghost some = { Prim.omega arith };

    fn is_flat(q: CubicBezier<Point>, tolerance_sq: f64) -> bool
        ensures { result ≡ is_flat q tolerance_sq }
    {
        is_flat(q, tolerance_sq)
    }

    fn halve(q: CubicBezier<Point>) -> Halves<Point>
        ensures { result ≡ halves q }
    {
        Halves::of(q, 0.5)
    }

    fn put(self, out: &mut [f64], at: usize) {
        put_pair(out, 2 * at, self)
    }
}

impl Part for Point3D {
    ghost flat = { is_flat3 };

    ghost halved = { halves3 };

    ghost width = { 3 };

    ghost lay = { triple };

    ghost as_wide = { λ p. refl };

    ghost some = { Prim.omega arith };

    #[tactic(auto, unfolding(crate::specs::Flatten::is_flat3))]
    fn is_flat(q: CubicBezier<Point3D>, tolerance_sq: f64) -> bool
        ensures { result ≡ is_flat3 q tolerance_sq }
    {
        get_bezier_flatness_sq(q) <= tolerance_sq
    }

    #[tactic(auto, unfolding(crate::specs::Flatten::halves3))]
    fn halve(q: CubicBezier<Point3D>) -> Halves<Point3D>
        ensures { result ≡ halves3 q }
    {
        let m01 = midpoint_3d(q.0, q.1);
        let m12 = midpoint_3d(q.1, q.2);
        let m23 = midpoint_3d(q.2, q.3);
        let q01 = midpoint_3d(m01, m12);
        let q12 = midpoint_3d(m12, m23);
        let r = midpoint_3d(q01, q12);
        Halves {
            left: CubicBezier(q.0, m01, q01, r),
            right: CubicBezier(r, q12, m23, q.3),
        }
    }

    fn put(self, out: &mut [f64], at: usize) {
        put_point(out, 3 * at, self)
    }
}
