// Lists as they are lent, each in one value: commands, and a stretch of a list of points.
ghost use Rattle.std.specs.Prelude.{◌≡◌, ◌+◌, ◌*◌, ◌<◌, ◌≤◌, length};
ghost use Rattle.geo.specs.Lent.{command_at, point_at, end_of};
ghost use Rattle.geo.specs.Domain.{commands_in, commands_formed};

use crate::domain::{all_coordinates, command_in, is_formed};
use crate::lent::command_at;
use crate::types::{Command, Point3D};

// Two points of a list of triples, and what lies between them: nothing does where the second stands before the first.
#[derive(Clone, Copy)]
pub struct Stretch<'a> {
    pub points: &'a [f64],
    pub start: usize,
    pub end: usize,
    ghost start_inside: { 3 * start + 2 < length points.now },
    ghost end_inside: { 3 * end + 2 < length points.now },
}

impl<'a> Stretch<'a> {
    // The point at any index of the list.
    pub fn at(self, i: usize) -> Point3D
        requires { 3 * i + 2 < length self.points.now }
        ensures { result ≡ point_at self.entry.points.now i }
    {
        crate::lent::point_at(self.points, i)
    }

    pub fn first(self) -> Point3D
        ensures { result ≡ point_at self.entry.points.now self.entry.start }
    {
        self.at(self.start)
    }

    pub fn last(self) -> Point3D
        ensures { result ≡ point_at self.entry.points.now self.entry.end }
    {
        self.at(self.end)
    }
}

// Commands: their kinds, and nine numbers for each at least.
#[derive(Clone, Copy)]
pub struct Commands<'a> {
    pub kinds: &'a [u8],
    pub nums: &'a [f64],
    ghost whole: { 9 * length kinds.now ≤ length nums.now },
}

impl<'a> Commands<'a> {
    pub fn len(self) -> usize
        ensures { result ≡ length self.entry.kinds.now }
    {
        self.kinds.len()
    }

    // The command at an index. That the index lies in the list is asked here and below: a type for it would be made at each step.
    pub fn at(self, i: usize) -> Command
        requires { i < length self.kinds.now }
        ensures { result ≡ command_at self.entry.kinds.now self.entry.nums.now i }
    {
        command_at(self.kinds, self.nums, i)
    }

    // Where the command at an index ends: the first of its points, whatever its kind.
    #[tactic(auto, unfolding(crate::specs::Lent::command_at), using(crate::proofs::Formed::ends_first))]
    pub fn end_at(self, i: usize) -> Point3D
        requires { i < length self.kinds.now }
        ensures { result ≡ end_of (command_at self.entry.kinds.now self.entry.nums.now i) }
    {
        crate::lent::point_at(self.nums, 3 * i)
    }

    // Row 4: whether each kind is known, and the numbers that it does not use are +0, wherever a Move may stand.
    pub fn are_formed(self) -> bool
        ensures { result ≡ commands_formed self.entry.kinds.now self.entry.nums.now }
    {
        (0..self.kinds.len()).all(|i| {
            let q = crate::lent::point_at(self.nums, 3 * i + 1);
            let r = crate::lent::point_at(self.nums, 3 * i + 2);
            is_formed(self.kinds[i], q, r)
        })
    }

    // Row 5: whether the numbers of each are in the domain. Where each number may be a coordinate, so are those that count, and
    // no kind needs to be looked at.
    #[tactic(auto, using(crate::proofs::Coordinates::all_in))]
    pub fn are_in(self) -> bool
        ensures { result ≡ commands_in self.entry.kinds.now self.entry.nums.now }
    {
        all_coordinates(self.nums) || self.each_is_in()
    }

    fn each_is_in(self) -> bool
        ensures { result ≡ commands_in self.entry.kinds.now self.entry.nums.now }
    {
        (0..self.kinds.len()).all(|i| command_in(self.at(i)))
    }
}
