// A track: items in a row that are thinned to the front of where they are written; and the one recursion that thins each.
ghost use Rattle.std.specs.Prelude.{◌≡◌, false, ◌++◌, [], ◌∷◌, ◌<◌, ◌≤◌, ℕ, Bool, List, length};
ghost use Rattle.floats.specs.Ops.{◌≺◌, +0};
ghost use Rattle.geo.specs.Domain.{most_points};
ghost use Rattle.farthest.specs.Measure.{Measure};
ghost use Rattle.farthest.specs.Farthest.{farthest_in};
ghost use Rattle.simplify.specs.Thin.{kept_in};
ghost use Rattle.simplify.specs.Flags.{marked};
ghost use Rattle.simplify.specs.Track.{flagged, kept_of};

use farthest::farthest::Farthest;
use geo::domain::MOST_POINTS;

pub trait Track {
    type Item;

    ghost size: { Self → ℕ };

    ghost item: { Self → ℕ → Self.Item };

    ghost measure: { Self → Measure Self.Item };

    // Whether an item is kept whatever its flag.
    ghost always: { Self.Item → Bool };

    // The second is the first with these items written from the front on.
    ghost Placed: { Self → List Self.Item → Self → Type 0 };

    fn len(&self) -> usize
        ensures { result ≡ size self.now };

    // The first farthest item strictly between two. A range is two indices, here and in `mark`, and a move two: items may be commands,
    // which no `Stretch` holds, and each cut would take a range apart.
    fn farthest(&self, lo: usize, hi: usize) -> Farthest
        requires { (lo ≤ hi) × (hi < size self.now) }
        ensures { result ≡ farthest_in (measure self.now) (item self.now) lo hi };

    fn stays(&self, i: usize) -> bool
        requires { i < size self.now }
        ensures { result ≡ always (item self.now i) };

    // Writes the item at an index to a place that is not behind it.
    fn place(&mut self, from: usize, to: usize)
        requires { (to ≤ from) × (from < size self.old) }
        ensures { (s : Self) (xs : List Self.Item) → Placed s xs self.old → to ≡ length xs → Placed s (xs ++ item s from ∷ []) self.new };

    ghost begun: { (s : Self) → Placed s [] s };

    ghost sized: { (s t : Self) (xs : List Self.Item) → Placed s xs t → size t ≡ size s };

    // Items not yet reached stand as they stood.
    ghost ahead: { (s t : Self) (xs : List Self.Item) → Placed s xs t → (i : ℕ) → length xs ≤ i → item t i ≡ item s i };
}

// Sets the flag of each item that is kept strictly between lo and hi, those apart that are always kept. That the limit is not below
// zero is asked here, of `thin` and of `thin_in_place`: a type of its own would hold one number, and each caller would make it.
fn mark<T: Track>(track: &T, limit: f64, lo: usize, hi: usize, keep: &mut [bool])
    requires { ((limit ≺ +0) ≡ false) × ((lo ≤ hi) × (hi < T.size track.now) × (hi < length keep.old)) }
    ensures { keep.new ≡ marked (kept_in (T.measure track.now) limit (T.item track.now) lo hi) keep.old }
{
    let w = track.farthest(lo, hi);
    if w.cuts(limit) {
        let k = w.index;
        mark(track, limit, lo, k, keep);
        keep[k] = true;
        mark(track, limit, k, hi, keep);
    }
}

// Writes the items whose flag is set, and those that are always kept, from the front on, in their order, and answers how many
// they are: their count is the place of the next. None is written behind its own place, so in place those ahead stand as they stood.
fn close_up<T: Track>(track: &mut T, keep: &[bool]) -> usize
    requires { T.size track.old ≤ length keep.now }
    ensures count { result ≡ length (flagged T.always (T.item track.old) keep.now (T.size track.old)) }
    ensures items { T.Placed track.old (flagged T.always (T.item track.old) keep.now (T.size track.old)) track.new }
{
    let mut count = 0;
    for i in 0..track.len() {
        if track.stays(i) || keep[i] {
            track.place(i, count);
            count += 1;
        }
    }
    count
}

// Thins a track, and answers how many items are kept. Both ends are kept, and so fewer than 3 are all written.
pub fn thin<T: Track>(track: &mut T, limit: f64) -> usize
    requires { ((limit ≺ +0) ≡ false) × (T.size track.old ≤ most_points) }
    ensures count { result ≡ length (kept_of T.always (T.measure track.old) limit (T.item track.old) (T.size track.old)) }
    ensures items { T.Placed track.old (kept_of T.always (T.measure track.old) limit (T.item track.old) (T.size track.old)) track.new }
{
    let n = track.len();
    if n == 0 {
        return 0;
    }
    // Document 01: "Keep flags start as [false; 2048]", an array, since there is no heap.
    let mut keep = [false; MOST_POINTS];
    keep[0] = true;
    mark(track, limit, 0, n - 1, &mut keep);
    keep[n - 1] = true;
    close_up(track, &keep)
}
