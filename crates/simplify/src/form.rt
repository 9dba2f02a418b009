// How points are lent: pairs and triples. What is read, written and measured of each.
ghost use Rattle.std.specs.Prelude.{◌≡◌, ◌*◌, ◌/◌, ◌<◌, ◌≤◌, ℕ, length};
ghost use Rattle.std.proofs.lemmas.List.Edits.{sets};
ghost use Rattle.farthest.specs.Farthest.{farthest_in};
ghost use Rattle.simplify.specs.Simplify.{Form, pairs, triples};
ghost use Rattle.simplify.specs.Track.{Wide, pairs_wide, triples_wide};

use farthest::ends::Pairs;
use farthest::farthest::{Farthest, farthest_from_line};
use geo::lent::{pair_at, point_at, put_pair, put_point};
use geo::lists::Stretch;
use geo::types::{Point, Point3D};

pub trait Form: Copy {
    ghost WIDTH: { ℕ };

    // How many numbers a point has.
    const WIDTH: usize;

    ghost form: { Form Self };

    // The point at an index. List and index are two, here and below, as for geo's readers and writers.
    fn read(points: &[f64], i: usize) -> Self
        requires { i < length points.now / WIDTH }
        ensures { result ≡ form.read points.now i };

    // Writes this point at an index.
    fn write(self, out: &mut [f64], i: usize)
        requires { i < length out.old / WIDTH }
        ensures { out.new ≡ sets out.old (WIDTH * i) (form.lay self) };

    // The first farthest point strictly between two, in x and y, from the endless line. The two are indices: a `Stretch` is of triples.
    fn farthest(points: &[f64], lo: usize, hi: usize) -> Farthest
        requires { (lo ≤ hi) × (hi < length points.now / WIDTH) }
        ensures { result ≡ farthest_in form.measure (form.read points.now) lo hi };

    ghost wide: { Wide form WIDTH };
}

// The two forms differ in each name that they have, the reader, the writer and the list that is searched: a default could say none.
impl Form for Point {
    ghost WIDTH = { 2 };

    const WIDTH: usize = 2;

    ghost form = { pairs };

    ghost wide = { pairs_wide };

    fn read(points: &[f64], i: usize) -> Self {
        pair_at(points, i)
    }

    fn write(self, out: &mut [f64], i: usize) {
        put_pair(out, 2 * i, self);
    }

    fn farthest(points: &[f64], lo: usize, hi: usize) -> Farthest {
        farthest_from_line(Pairs(points), lo, hi)
    }
}

impl Form for Point3D {
    ghost WIDTH = { 3 };

    const WIDTH: usize = 3;

    ghost form = { triples };

    ghost wide = { triples_wide };

    fn read(points: &[f64], i: usize) -> Self {
        point_at(points, i)
    }

    fn write(self, out: &mut [f64], i: usize) {
        put_point(out, 3 * i, self);
    }

    fn farthest(points: &[f64], lo: usize, hi: usize) -> Farthest {
        let stretch = Stretch {
            points,
            start: lo,
            end: hi,
        };
        farthest_from_line(stretch, lo, hi)
    }
}
