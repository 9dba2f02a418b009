// The 73 bytes of a command: its kind, and its nine numbers.
ghost use Rattle.std.specs.Prelude.{◌≡◌, map, ◌+◌, ◌*◌, ◌<◌, ◌≤◌, length, get_or, set, take, drop};
ghost use Rattle.std.proofs.lemmas.List.Edits.{sets};
ghost use Rattle.geo.specs.Domain.{zero3};
ghost use Rattle.geo.specs.Lent.{flat, triple, command_of, kind_of, numbers_of, commands_from};
ghost use Rattle.file.specs.Bytes.{f64_bytes};
ghost use Rattle.file.specs.Command.{point_from, decoded, well_formed, laid, enc, commands_at};

use crate::words::{is_plus_zero_at, number_at, put_f64};
use geo::lent::{make_command, put_command};
use geo::lists::Commands;
use geo::types::{Command, Point3D};

// "A command has 73 bytes: kind, nine numbers".
pub const COMMAND_BYTES: usize = 73;

// A command as a file has it, in the first 73 bytes.
#[derive(Clone, Copy)]
pub struct Encoded<'a> {
    pub bytes: &'a [u8],
    ghost whole: { 73 ≤ length bytes.now },
}

impl<'a> Encoded<'a> {
    // The command whose end is p.
    fn curve(self, p: Point3D) -> Command
        ensures { result ≡ command_of (get_or self.entry.bytes.now 0 0) p (point_from self.entry.bytes.now 25) (point_from self.entry.bytes.now 49) }
    {
        let s = self.bytes;
        let q = point_from(s, 25);
        let r = point_from(s, 49);
        make_command(s[0], p, q, r)
    }

    // The command. A Move and a Line have no number but their end's.
    pub fn read(self) -> Command
        ensures { result ≡ decoded self.entry.bytes.now }
    {
        let s = self.bytes;
        let p = point_from(s, 1);
        let o = Point3D::ZERO;
        if s[0] < 2 {
            return make_command(s[0], p, o, o);
        }
        self.curve(p)
    }

    // Whether the kind is known, and the numbers that it does not use are +0.
    #[tactic(auto, unfolding(geo::specs::Domain::formed, crate::specs::Command::well_formed))]
    pub fn is_well_formed(self) -> bool
        ensures { result ≡ well_formed self.entry.bytes.now }
    {
        let s = self.bytes;
        if s[0] < 2 {
            return is_zero_from(s, 25) && is_zero_from(s, 49);
        }
        s[0] < 4
    }

    // Reads the command to index i of kinds and numbers. A Move and a Line, which most are, go there straight, and not by way of
    // a command in memory.
    // The kind is matched as the byte that it is, since a file's kind may be any until it is checked.
    // Kinds and numbers are two outputs, here and below: two exclusive borrows would be taken apart and put together at each command.
    fn read_to(self, kinds: &mut [u8], nums: &mut [f64], i: usize)
        requires { (i < length kinds.old) × (9 * i + 8 < length nums.old) }
        ensures kinds { kinds.new ≡ set kinds.old i (kind_of (decoded self.entry.bytes.now)) }
        ensures numbers { nums.new ≡ sets nums.old (9 * i) (numbers_of (decoded self.entry.bytes.now)) }
    {
        let s = self.bytes;
        match s[0] {
            0 => put_command(
                kinds,
                nums,
                i,
                Command::Move {
                    end: point_from(s, 1),
                },
            ),
            1 => put_command(
                kinds,
                nums,
                i,
                Command::Line {
                    end: point_from(s, 1),
                },
            ),
            _ => put_command(kinds, nums, i, self.read()),
        }
    }
}

// Commands as they stand among bytes: so many from a place on.
#[derive(Clone, Copy)]
pub struct Body<'a> {
    pub bytes: &'a [u8],
    pub at: usize,
    pub count: usize,
    ghost inside: { at + 73 * count ≤ length bytes.now },
}

impl<'a> Body<'a> {
    // The command at an index.
    pub fn command(self, i: usize) -> Encoded<'a>
        requires { i < self.count }
        ensures bytes { result.bytes.now ≡ take 73 (drop (self.entry.at + 73 * i) self.entry.bytes.now) }
        ensures whole { length result.bytes.now ≡ 73 }
    {
        let b = self.at + COMMAND_BYTES * i;
        let e = b + COMMAND_BYTES;
        Encoded {
            bytes: &self.bytes[b..e],
        }
    }

    // The first n of the commands.
    pub fn front(self, n: usize) -> Body<'a>
        requires { n ≤ self.count }
        ensures { (result.bytes.now ≡ self.entry.bytes.now) × (result.at ≡ self.entry.at) × (result.count ≡ n) }
    {
        Body {
            bytes: self.bytes,
            at: self.at,
            count: n,
        }
    }
}

// The point whose three numbers stand from `at` on: a slice and an index, here and below, as in `words`.
#[tactic(auto, unfolding(crate::specs::Command::point_from))]
pub fn point_from(s: &[u8], at: usize) -> Point3D
    requires { at + 24 ≤ length s.now }
    ensures { result ≡ point_from s.now at }
{
    Point3D {
        x: number_at(s, at),
        y: number_at(s, at + 8),
        z: number_at(s, at + 16),
    }
}

// Whether the three numbers from `at` on are +0, told by their bytes.
#[tactic(auto, unfolding(geo::specs::Domain::zero3, crate::specs::Command::point_from))]
fn is_zero_from(s: &[u8], at: usize) -> bool
    requires { at + 24 ≤ length s.now }
    ensures { result ≡ zero3 (point_from s.now at) }
{
    is_plus_zero_at(s, at) && is_plus_zero_at(s, at + 8) && is_plus_zero_at(s, at + 16)
}

// Writes the 24 bytes of a point from `at` on.
fn put_point(out: &mut [u8], at: usize, p: Point3D)
    requires { at + 24 ≤ length out.old }
    ensures { out.new ≡ sets out.old at (flat f64_bytes (triple p)) }
{
    put_f64(out, at, p.x);
    put_f64(out, at + 8, p.y);
    put_f64(out, at + 16, p.z);
}

// Writes a kind, a byte in the file too, and three points from `at` on.
// The points are no command: of a Move and a Line two are made up, and no struct of three points has a use elsewhere.
fn put_points(out: &mut [u8], at: usize, kind: u8, p: Point3D, q: Point3D, r: Point3D)
    requires { at + 73 ≤ length out.old }
    ensures { out.new ≡ sets out.old at (laid kind p q r) }
{
    out[at] = kind;
    put_point(out, at + 1, p);
    put_point(out, at + 25, q);
    put_point(out, at + 49, r);
}

// Writes the 73 bytes of a command from `at` on.
pub fn write_command(out: &mut [u8], at: usize, c: Command)
    requires { at + 73 ≤ length out.old }
    ensures { out.new ≡ sets out.old at (enc c) }
{
    let o = Point3D::ZERO;
    match c {
        Command::Move { end } => put_points(out, at, 0, end, o, o),
        Command::Line { end } => put_points(out, at, 1, end, o, o),
        Command::Arc {
            end,
            center_offset,
            normal,
        } => put_points(out, at, 2, end, center_offset, normal),
        Command::Bezier {
            end,
            control1,
            control2,
        } => put_points(out, at, 3, end, control1, control2),
    }
}

// Reads the commands of a body to the front of kinds and numbers.
pub fn read_commands(body: Body, kinds: &mut [u8], nums: &mut [f64])
    requires { (body.count ≤ length kinds.old) × (9 * body.count ≤ length nums.old) }
    ensures kinds { kinds.new ≡ sets kinds.old 0 (map kind_of (map decoded (commands_at body.entry.bytes.now body.entry.at body.entry.count))) }
    ensures numbers { nums.new ≡ sets nums.old 0 (flat numbers_of (map decoded (commands_at body.entry.bytes.now body.entry.at body.entry.count))) }
{
    for i in 0..body.count {
        body.command(i).read_to(kinds, nums, i);
    }
}

// Writes lent commands from `to` on.
pub fn write_commands(commands: Commands, out: &mut [u8], to: usize)
    requires { to + 73 * length commands.kinds.now ≤ length out.old }
    ensures { out.new ≡ sets out.old to (flat enc (commands_from commands.entry.kinds.now commands.entry.nums.now (length commands.entry.kinds.now) 0)) }
{
    for i in 0..commands.kinds.len() {
        write_command(out, to + COMMAND_BYTES * i, commands.at(i));
    }
}
