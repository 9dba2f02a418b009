// What is searched for its farthest from the endless line: pairs, triples and commands, each by its end.
ghost use Rattle.std.specs.Prelude.{◌≡◌, ◌+◌, ◌/◌, ◌^◌, ◌<◌, ℕ, length, Option, Some};
ghost use Rattle.geo.specs.declared.types.Point3D.{Point3D};
ghost use Rattle.geo.specs.Lent.{pair_at, point_at, command_at, end_of};
ghost use Rattle.farthest.specs.Measure.{Measure, chord_of, line_sq, plane_sq, raised};
ghost use Rattle.farthest.specs.Candidates.{to_end, candidate_of, pairs_measured, points_measured, commands_measured};
ghost use Rattle.farthest.specs.Ends.{is_move, command_sq};

use geo::lent::pair_at;
use geo::lists::{Commands, Stretch};
use geo::types::{Command, Point, Point3D};

// Items in a row, each with the end by which it is measured.
pub trait Ends: Copy {
    type Item;

    ghost size: { Self → ℕ };

    ghost item: { Self → ℕ → Self.Item };

    ghost end_of: { Self.Item → Point3D };

    ghost candidate_of: { Self.Item → Option Point3D };

    ghost measure: { Measure Self.Item };

    fn end(self, i: usize) -> Point3D
        requires { i < size self }
        ensures is { result ≡ end_of (item self i) }
        // so that a loop may begin behind it
        ensures next { i + 1 < 2 ^ 64 };

    // The end of an item at which a range may be cut.
    fn candidate(self, i: usize) -> Option<Point3D>
        requires { i < size self }
        ensures { result ≡ candidate_of (item self i) };

    // The distance is that of the candidate to the line through two ends; what is none counts as on it.
    ghost measured: { (a b x : Self.Item) → measure a b x ≡ to_end (chord_of (end_of a) (end_of b)) (candidate_of x) };
}

// Points of the plane as they are lent, at height 0. fit_cubic's `Pairs` are at most as many as a fit takes, which no search asks.
#[derive(Clone, Copy)]
pub struct Pairs<'a>(pub &'a [f64]);

impl<'a> Ends for Pairs<'a> {
    type Item = Point;

    ghost size = { λ s. length s.0.now / 2 };

    ghost item = { λ s. pair_at s.0.now };

    ghost end_of = { raised };

    ghost candidate_of = { λ p. Some (raised p) };

    ghost measure = { plane_sq };

    ghost measured = { pairs_measured };

    fn end(self, i: usize) -> Point3D {
        let p = pair_at(self.0, i);
        Point3D {
            x: p.x,
            y: p.y,
            z: 0.0,
        }
    }

    fn candidate(self, i: usize) -> Option<Point3D> {
        Some(self.end(i))
    }
}

// All points of the list that a stretch is of.
impl<'a> Ends for Stretch<'a> {
    type Item = Point3D;

    ghost size = { λ s. length s.points.now / 3 };

    ghost item = { λ s. point_at s.points.now };

    ghost end_of = { λ p. p };

    ghost candidate_of = { Some };

    ghost measure = { line_sq };

    ghost measured = { points_measured };

    fn end(self, i: usize) -> Point3D {
        self.at(i)
    }

    fn candidate(self, i: usize) -> Option<Point3D> {
        Some(self.at(i))
    }
}

// Commands; no Move is a candidate for a cut.
impl<'a> Ends for Commands<'a> {
    type Item = Command;

    ghost size = { λ s. length s.kinds.now };

    ghost item = { λ s. command_at s.kinds.now s.nums.now };

    ghost end_of = { end_of };

    ghost candidate_of = { candidate_of };

    ghost measure = { command_sq };

    ghost measured = { commands_measured };

    fn end(self, i: usize) -> Point3D {
        self.end_at(i)
    }

    #[tactic(auto, unfolding(crate::specs::Candidates::candidate_of))]
    fn candidate(self, i: usize) -> Option<Point3D> {
        if is_move_at(self, i) {
            return None;
        }
        Some(self.end_at(i))
    }
}

// Whether a command is a Move.
#[tactic(auto, unfolding(crate::specs::Ends::is_move))]
pub fn is_move(c: Command) -> bool
    ensures { result ≡ is_move c }
{
    matches!(c, Command::Move { end: _ })
}

// Whether the command at an index is a Move. Its kind alone is read: a search that reads whole commands takes a third longer. The index
// is asked to be one of the commands: a type of it would hold one number, and be made for each command looked at.
#[tactic(auto, unfolding(geo::specs::Lent::command_at), using(crate::proofs::Moves::move_told))]
pub fn is_move_at(commands: Commands, i: usize) -> bool
    requires { i < length commands.kinds.now }
    ensures { result ≡ is_move (command_at commands.entry.kinds.now commands.entry.nums.now i) }
{
    commands.kinds[i] == 0
}
