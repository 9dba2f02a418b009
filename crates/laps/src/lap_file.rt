// The lap file: its head, its table and its rows.
ghost use Rattle.std.specs.Prelude.{◌≡◌, ℕ, Bool, true, List, [], ◌++◌, ◌+◌, ◌*◌, ◌<◌, ◌≤◌, length, get_or, IfOk};
ghost use Rattle.std.proofs.lemmas.List.Edits.{sets};
ghost use Rattle.geo.specs.Outcome.{refusal};
ghost use Rattle.geo.specs.Refusal.{refused_by};
ghost use Rattle.file.specs.Bytes.{u32_bytes};
ghost use Rattle.file.specs.Command.{commands_at};
ghost use Rattle.laps.specs.File.{lap_count, offset_at, count_at, laps_of, mark, short, big, has_mark, walk, table_ok, placed, form_ok, domain_ok, fitted_ok, finite_ok, both_ok, lacks, lap_ok, lap_tested, laps_ok};
ghost use Rattle.laps.specs.Rows.{commands_rows, file_rows, size_rows};

use file::command::{Body, COMMAND_BYTES, Encoded, point_from};
use file::words::{half_at, put_u32};
use geo::domain::{command_in, is_finite3, point3_in};
use geo::refusal::Refusal;

// The most that a file may have: "The lap count L, 0 to 64", "At most 800 commands and 65,536 bytes".
pub const MOST_LAPS: usize = 64;

pub const MOST_COMMANDS: usize = geo::domain::MOST_COMMANDS;

pub const MOST_BYTES: usize = 65536;

// The kind of a Bezier. The kinds are numbers, here and below, since they are compared with the byte that a file has, of whatever kind.
pub const BEZIER: u8 = 3;

// Bytes that are long enough for a mark and a lap count. file's `Encoded` has another length and other methods: of one type over the length
// each method would name its own.
#[derive(Clone, Copy)]
pub struct Headed<'a> {
    pub bytes: &'a [u8],
    ghost long: { 8 ≤ length bytes.now },
}

impl<'a> Headed<'a> {
    // The lap count.
    #[tactic(auto, unfolding(crate::specs::File::lap_count))]
    pub fn lap_count(self) -> usize
        ensures { (result ≡ lap_count self.entry.bytes.now) × (result < 4294967296) }
    {
        half_at(self.bytes, 4) as usize
    }

    // Whether there are too many bytes or laps.
    #[tactic(auto, unfolding(crate::specs::File::big))]
    pub fn is_too_big(self) -> bool
        ensures { result ≡ big self.entry.bytes.now }
    {
        MOST_BYTES < self.bytes.len() || MOST_LAPS < self.lap_count()
    }

    // Whether the mark is "LAPS".
    #[tactic(auto, unfolding(crate::specs::File::has_mark))]
    fn has_mark(self) -> bool
        ensures { result ≡ has_mark self.entry.bytes.now }
    {
        self.bytes.starts_with(b"LAPS")
    }

    // Whether the mark and the table are right. The mark is compared first.
    // At most 64 laps is a clause, here and in the crates above, and no fact of `LapFile`: what takes a right table has asked for no limit.
    pub fn has_table(self) -> bool
        requires { lap_count self.bytes.now ≤ 64 }
        ensures { result ≡ table_ok self.entry.bytes.now }
    {
        if !self.has_mark() {
            return false;
        }
        let l = self.lap_count();
        if self.bytes.len() < 8 + 8 * l {
            return false;
        }
        walks(self.bytes, l)
    }
}

// A file whose table is right: rows 1 to 3.
#[derive(Clone, Copy)]
pub struct LapFile<'a> {
    pub bytes: &'a [u8],
    ghost long: { 8 ≤ length bytes.now },
    ghost table: { table_ok bytes.now ≡ true },
}

impl<'a> LapFile<'a> {
    // How many laps it has.
    pub fn lap_count(self) -> usize
        ensures { (result ≡ lap_count self.entry.bytes.now) × (result < 4294967296) }
    {
        Headed { bytes: self.bytes }.lap_count()
    }

    // The lap at an index, as its entry of the table tells it.
    pub fn lap(self, j: usize) -> Body<'a>
        requires { j < lap_count self.bytes.now }
        ensures bytes { result.bytes.now ≡ self.entry.bytes.now }
        ensures lap { commands_at result.bytes.now result.at result.count ≡ get_or (laps_of self.entry.bytes.now) j [] }
        ensures some { (1 ≤ result.count) × (result.count ≤ 800) }
    {
        Body {
            bytes: self.bytes,
            at: offset_at(self.bytes, j),
            count: count_at(self.bytes, j),
        }
    }
}

// The offset in entry j of the table.
// An entry is bytes and an index, here and below: of a type for it, each entry would be made for its two numbers alone.
#[tactic(auto, unfolding(crate::specs::File::offset_at))]
pub fn offset_at(s: &[u8], j: usize) -> usize
    requires { 16 + 8 * j ≤ length s.now }
    ensures { (result ≡ offset_at s.now j) × (result < 4294967296) }
{
    half_at(s, 8 + 8 * j) as usize
}

// The command count in entry j of the table.
#[tactic(auto, unfolding(crate::specs::File::count_at))]
pub fn count_at(s: &[u8], j: usize) -> usize
    requires { 16 + 8 * j ≤ length s.now }
    ensures { (result ≡ count_at s.now j) × (result < 4294967296) }
{
    half_at(s, 12 + 8 * j) as usize
}

// Whether the file is too short for a mark and a lap count.
#[tactic(auto, unfolding(crate::specs::File::short))]
pub fn too_short(s: &[u8]) -> bool
    ensures { result ≡ short s.now }
{
    s.len() < 8
}

// Whether the l entries of the table lead from body to body to the file's end.
// A `for`: a `try_fold` would carry a place and a count as one value.
fn walks(s: &[u8], l: usize) -> bool
    requires { (8 + 8 * l ≤ length s.now) × (l ≤ 64) }
    ensures { result ≡ walk s.now 0 (8 + 8 * l) 0 l }
{
    let mut at = 8 + 8 * l;
    let mut total = 0;
    for j in 0..l {
        if offset_at(s, j) != at {
            return false;
        }
        let n = count_at(s, j);
        if n == 0 {
            return false;
        }
        if MOST_COMMANDS < total + n {
            return false;
        }
        at += COMMAND_BYTES * n;
        total += n;
    }
    at == s.len()
}

// Whether a kind, the byte as the file or C has it, may stand where a Move is to stand, or elsewhere in a lap.
#[tactic(auto, unfolding(crate::specs::File::placed))]
pub fn is_placed(first: bool, kind: u8) -> bool
    ensures { result ≡ placed first kind }
{
    if first { kind == 0 } else { kind != 0 }
}

// What is asked of each command of a lap, at a place where a Move is to stand or none is.
pub trait Test {
    ghost asks: { Bool → List ℕ → Bool };

    fn passes(first: bool, c: Encoded) -> bool
        ensures { result ≡ asks first c.entry.bytes.now };
}

// Row 4: its kind, its unused numbers, and where a Move stands.
#[derive(Clone, Copy)]
pub struct Form;

impl Test for Form {
    ghost asks = { form_ok };

    #[tactic(auto, unfolding(crate::specs::File::form_ok))]
    fn passes(first: bool, c: Encoded) -> bool {
        is_placed(first, c.bytes[0]) && c.is_well_formed()
    }
}

// Row 5: its numbers. Of a Move and of a Line, which most commands are, it asks for the end alone.
#[derive(Clone, Copy)]
pub struct Domain;

impl Test for Domain {
    ghost asks = { domain_ok };

    #[tactic(auto, unfolding(crate::specs::File::domain_ok), using(file::proofs::Blank::end_in))]
    fn passes(_first: bool, c: Encoded) -> bool {
        if c.bytes[0] < 2 {
            return point3_in(point_from(c.bytes, 1));
        }
        command_in(c.read())
    }
}

// Rows 4 and 5.
#[derive(Clone, Copy)]
pub struct Both;

impl Test for Both {
    ghost asks = { both_ok };

    #[tactic(auto, unfolding(crate::specs::File::both_ok))]
    fn passes(first: bool, c: Encoded) -> bool {
        Form::passes(first, c) && Domain::passes(first, c)
    }
}

// Row 4 of a fitted lap: the same as Form, and it has no Bezier.
#[derive(Clone, Copy)]
pub struct Fitted;

impl Test for Fitted {
    ghost asks = { fitted_ok };

    #[tactic(auto, unfolding(crate::specs::File::fitted_ok))]
    fn passes(first: bool, c: Encoded) -> bool {
        Form::passes(first, c) && c.bytes[0] != BEZIER
    }
}

// Row 5 of a fitted lap: "its numbers need only be finite" (document 02, §9).
#[derive(Clone, Copy)]
pub struct Finite;

impl Test for Finite {
    ghost asks = { finite_ok };

    #[tactic(auto, unfolding(crate::specs::File::finite_ok, crate::specs::File::finite_numbers))]
    fn passes(_first: bool, c: Encoded) -> bool {
        is_finite3(point_from(c.bytes, 1))
            && is_finite3(point_from(c.bytes, 25))
            && is_finite3(point_from(c.bytes, 49))
    }
}

// Whether a lap lacks its Move.
pub fn lacks_move(lap: Body) -> bool
    ensures { result ≡ lacks (commands_at lap.entry.bytes.now lap.entry.at lap.entry.count) }
{
    lap.count != 0 && lap.bytes[lap.at] != 0
}

// What is asked of each command of a body, of which the first is to be a Move or none is.
// A `for` that carries which is the first: in an `all`, each command would compare its index.
pub fn commands_pass<T: Test>(opening: bool, body: Body) -> bool
    ensures { result ≡ lap_ok T.asks opening (commands_at body.entry.bytes.now body.entry.at body.entry.count) }
{
    let mut first = opening;
    for i in 0..body.count {
        if !T::passes(first, body.command(i)) {
            return false;
        }
        first = false;
    }
    true
}

// The same of a lap, which must have its Move or may lack it.
#[tactic(auto, unfolding(crate::specs::File::lap_tested))]
pub fn lap_passes<T: Test>(must: bool, lap: Body) -> bool
    ensures { result ≡ lap_tested T.asks must (commands_at lap.entry.bytes.now lap.entry.at lap.entry.count) }
{
    commands_pass::<T>(must || !lacks_move(lap), lap)
}

// The same of all laps. Only the first must have its Move.
fn all_pass<T: Test>(file: LapFile) -> bool
    ensures { result ≡ laps_ok T.asks true (laps_of file.entry.bytes.now) }
{
    (0..file.lap_count()).all(|j| lap_passes::<T>(j == 0, file.lap(j)))
}

// The first of the rows 4 and 5 that a file falls under. A file that passes both, as nearly every one does, is read once.
pub fn check_commands(file: LapFile) -> Result<(), Refusal>
    ensures { refused_by result ≡ refusal (commands_rows file.entry.bytes.now) }
{
    if all_pass::<Both>(file) {
        return Ok(());
    }
    if all_pass::<Form>(file) {
        return Err(Refusal::BadNumber);
    }
    Err(Refusal::BadCommand)
}

// The first of the rows 1 to 5 that a file falls under, or the file, whose table is right.
pub fn check_file<'a>(s: &'a [u8]) -> Result<LapFile<'a>, Refusal>
    ensures row { refused_by result ≡ refusal (file_rows s.now) }
    ensures same { IfOk result (λ file. file.bytes.now ≡ s.now) }
{
    if too_short(s) {
        return Err(Refusal::NotWhole);
    }
    let headed = Headed { bytes: s };
    if headed.is_too_big() {
        return Err(Refusal::TooMany);
    }
    if !headed.has_table() {
        return Err(Refusal::BadFile);
    }
    let file = LapFile { bytes: s };
    check_commands(file)?;
    Ok(file)
}

// Rows 8 and 9 of what has so many laps and at most so many commands: the first that it falls under.
pub fn check_sizes(laps: usize, most: usize, room: usize) -> Result<(), Refusal>
    requires { laps < 4294967296 }
    ensures { refused_by result ≡ refusal (size_rows laps most room) }
{
    if MOST_COMMANDS < most {
        return Err(Refusal::TooMuch);
    }
    if room < 8 + 8 * laps + COMMAND_BYTES * most {
        return Err(Refusal::NoRoom);
    }
    Ok(())
}

// Writes the mark and the lap count.
pub fn put_head(out: &mut [u8], l: usize)
    requires { 8 ≤ length out.old }
    ensures { out.new ≡ sets out.old 0 (mark ++ u32_bytes l) }
{
    out[..4].copy_from_slice(b"LAPS");
    put_u32(out, 4, l as u64);
}

// Writes entry j of the table. Its offset and its count come one by one, as its callers have them: where the last lap ended, and how long
// this one is.
pub fn put_entry(out: &mut [u8], j: usize, at: usize, n: usize)
    requires { 16 + 8 * j ≤ length out.old }
    ensures { out.new ≡ sets out.old (8 + 8 * j) (u32_bytes at ++ u32_bytes n) }
{
    let b = 8 + 8 * j;
    put_u32(out, b, at as u64);
    put_u32(out, b + 4, n as u64);
}
