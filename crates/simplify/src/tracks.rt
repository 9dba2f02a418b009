// What is thinned: points to an output, points in place, and commands to two outputs.
ghost use Rattle.std.proofs.Common.{rules};
ghost use Rattle.std.specs.Prelude.{refl, ◌≡◌, ◌*◌, ◌/◌, ◌<◌, ◌≤◌, map, length};
ghost use Rattle.std.proofs.lemmas.List.Edits.{sets};
ghost use Rattle.geo.specs.Lent.{triple, flat, point_at, command_at, kind_of, numbers_of};
ghost use Rattle.farthest.specs.Measure.{measure_of};
ghost use Rattle.farthest.specs.Ends.{is_move, command_sq};
ghost use Rattle.simplify.specs.Track.{never};
ghost use Rattle.simplify.specs.Placed.{none_placed, placed_size, placed_ahead};

use crate::form::Form;
use crate::track::Track;
use farthest::ends::is_move_at;
use farthest::farthest::{Farthest, Ruler, farthest_between, farthest_from_line};
use geo::lent::{point_at, put_command, put_point};
use geo::lists::{Commands, Stretch};
use geo::types::{Command, Point3D};
use std::marker::PhantomData;

// Points of a form, thinned to the front of an output that has room for all. A range and a move are two indices, here and below: items may
// be commands, which no `Stretch` holds.
#[derive(Drop)]
pub struct Points<'a, P: Form> {
    pub points: &'a [f64],
    pub out: &'a mut [f64],
    pub form: PhantomData<P>,
    ghost room: { length points.now / P.Form.WIDTH ≤ length out.now / P.Form.WIDTH },
}

impl<'a, P: Form> Track for Points<'a, P> {
    type Item = P;

    ghost size = { λ s. length s.points.now / P.WIDTH };

    ghost item = { λ s. P.form.read s.points.now };

    ghost measure = { λ s. P.form.measure };

    ghost always = { never };

    ghost Placed = { λ s xs t. (t.points.now ≡ s.points.now) × (t.out.ghost_name ≡ s.out.ghost_name) × (t.out.now ≡ sets s.out.now 0 (flat P.form.lay xs)) };

    ghost begun = { λ s. (refl, refl, none_placed P.form.lay s.out.now) };

    ghost sized = { λ s t xs w. Prim.search (rules, w.0) };

    ghost ahead = { λ s t xs w i h. Prim.search (rules, w.0) };

    fn len(&self) -> usize {
        self.points.len() / P::WIDTH
    }

    fn farthest(&self, lo: usize, hi: usize) -> Farthest {
        P::farthest(self.points, lo, hi)
    }

    fn stays(&self, _i: usize) -> bool {
        false
    }

    fn place(&mut self, from: usize, to: usize) {
        P::read(self.points, from).write(self.out, to);
    }
}

// Copies the triple at one index to another. A move is two indices, as `place` takes it: a struct would be made here to be taken apart.
fn move_point(points: &mut [f64], from: usize, to: usize)
    requires { (from < length points.old / 3) × (to < length points.old / 3) }
    ensures { points.new ≡ sets points.old (3 * to) (triple (point_at points.old from)) }
{
    let p = point_at(points, from);
    put_point(points, 3 * to, p);
}

// Triples, thinned in place by any distance.
#[derive(Drop)]
pub struct InPlace<'a> {
    pub ruler: Ruler,
    pub points: &'a mut [f64],
}

impl<'a> Track for InPlace<'a> {
    type Item = Point3D;

    ghost size = { λ s. length s.points.now / 3 };

    ghost item = { λ s. point_at s.points.now };

    ghost measure = { λ s. measure_of s.ruler };

    ghost always = { never };

    ghost Placed = { λ s xs t. (t.points.ghost_name ≡ s.points.ghost_name) × (t.points.now ≡ sets s.points.now 0 (flat triple xs)) };

    ghost begun = { λ s. (refl, none_placed triple s.points.now) };

    ghost sized = { λ s t xs w. placed_size s.points.now t.points.now xs w.1 };

    ghost ahead = { λ s t xs w. placed_ahead s.points.now t.points.now xs w.1 };

    fn len(&self) -> usize {
        self.points.len() / 3
    }

    fn farthest(&self, lo: usize, hi: usize) -> Farthest {
        let stretch = Stretch {
            points: self.points,
            start: lo,
            end: hi,
        };
        farthest_between(self.ruler, stretch)
    }

    fn stays(&self, _i: usize) -> bool {
        false
    }

    fn place(&mut self, from: usize, to: usize) {
        move_point(self.points, from, to);
    }
}

// Commands, thinned by their ends to the fronts of two outputs that have room for all. Every Move is kept.
#[derive(Drop)]
pub struct Listed<'a, 'k, 'n> {
    pub commands: Commands<'a>,
    pub kinds: &'k mut [u8],
    pub nums: &'n mut [f64],
    ghost room_kinds: { length commands.kinds.now ≤ length kinds.now },
    ghost room_numbers: { 9 * length commands.kinds.now ≤ length nums.now },
}

impl<'a, 'k, 'n> Track for Listed<'a, 'k, 'n> {
    type Item = Command;

    ghost size = { λ s. length s.commands.kinds.now };

    ghost item = { λ s. command_at s.commands.kinds.now s.commands.nums.now };

    ghost measure = { λ s. command_sq };

    ghost always = { is_move };

    ghost Placed = { λ s xs t. (t.commands.kinds.now ≡ s.commands.kinds.now) × (t.commands.nums.now ≡ s.commands.nums.now) × (t.kinds.ghost_name ≡ s.kinds.ghost_name) × (t.nums.ghost_name ≡ s.nums.ghost_name) × (t.kinds.now ≡ sets s.kinds.now 0 (map kind_of xs)) × (t.nums.now ≡ sets s.nums.now 0 (flat numbers_of xs)) };

    ghost begun = { λ s. (refl, refl, refl, refl, refl, none_placed numbers_of s.nums.now) };

    ghost sized = { λ s t xs w. Prim.search (rules, w.0) };

    ghost ahead = { λ s t xs w i h. Prim.search (rules, w.0, w.1) };

    fn len(&self) -> usize {
        self.commands.kinds.len()
    }

    fn farthest(&self, lo: usize, hi: usize) -> Farthest {
        farthest_from_line(self.commands, lo, hi)
    }

    fn stays(&self, i: usize) -> bool {
        is_move_at(self.commands, i)
    }

    fn place(&mut self, from: usize, to: usize) {
        put_command(self.kinds, self.nums, to, self.commands.at(from));
    }
}
