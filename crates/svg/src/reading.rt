// The lap file of a text: the rows that refuse it, and the second walk, which writes lap after lap.
ghost use Rattle.std.specs.Prelude.{◌≡◌, List, ℕ, length};
ghost use Rattle.geo.specs.Outcome.{refusal};
ghost use Rattle.geo.specs.Refusal.{refused_by};
ghost use Rattle.geo.specs.Wrote.{Wrote};
ghost use Rattle.svg.specs.Course.{read_rows, read_course};
ghost use Rattle.svg.specs.Laps.{LapFits, LapPut, CourseFits, CoursePut};

use crate::tally::{Tally, walk_text};
use file::command::{COMMAND_BYTES, write_command};
use geo::refusal::Refusal;
use laps::lap_file::{MOST_COMMANDS, MOST_LAPS, put_entry, put_head};
use svg_items::strokes::read_stroke;

// "only a text above 65,536 bytes (2) is met before it".
pub const MOST_TEXT: usize = 65536;

// How many commands a lap of the text has, and the text behind it: from the next M on, or nothing.
#[derive(Clone, Copy)]
pub struct LapRead<'a> {
    pub commands: usize,
    pub rest: &'a [u8],
}

// The first of the rows 2, 5 and 9 that a text falls under which keeps the rules.
#[tactic(auto, unfolding(crate::specs::Course::read_rows, geo::specs::Outcome::refusal))]
fn check_counts(tally: Tally, room: usize) -> Result<(), Refusal>
    ensures { refused_by result ≡ refusal (read_rows tally.laps tally.commands tally.inside room) }
{
    if MOST_LAPS < tally.laps || MOST_COMMANDS < tally.commands {
        return Err(Refusal::TooMany);
    }
    if !tally.inside {
        return Err(Refusal::BadNumber);
    }
    if room < 8 + 8 * tally.laps + COMMAND_BYTES * tally.commands {
        return Err(Refusal::NoRoom);
    }
    Ok(())
}

// Writes the lap that stands at the text's front from `to` on. The output is lent whole with that place, which stands in the table besides.
fn put_lap<'a>(s: &'a [u8], out: &mut [u8], to: usize) -> LapRead<'a>
    requires { LapFits s.now to (length out.old) }
    ensures { LapPut s.now out.old out.new to result }
{
    let mut rest = s;
    let mut commands = 0;
    // The text says where it ends and no count does, and what is behind a command decides whether another follows.
    loop {
        // the first walk has read this command
        let Some((c, behind)) = read_stroke(rest) else {
            return LapRead {
                commands: commands,
                rest: rest,
            };
        };
        write_command(out, to + COMMAND_BYTES * commands, c);
        commands += 1;
        if behind.is_empty() {
            return LapRead {
                commands: commands,
                rest: behind,
            };
        }
        rest = &behind[1..];
        if rest[0] == b'M' {
            return LapRead {
                commands: commands,
                rest: rest,
            };
        }
    }
}

// Writes the file of a text that has so many laps, the mark first, and returns how many bytes it has.
fn put_laps(s: &[u8], laps: usize, out: &mut [u8]) -> usize
    requires { CourseFits s.now laps (length out.old) }
    ensures { CoursePut s.now out.old out.new result }
{
    put_head(out, laps);
    let mut rest = s;
    let mut to = 8 + 8 * laps;
    // a `fold` would carry the rest, the place and the output
    for j in 0..laps {
        let lap = put_lap(rest, out, to);
        put_entry(out, j, to, lap.commands);
        rest = lap.rest;
        to += COMMAND_BYTES * lap.commands;
    }
    to
}

// Reads a course of SVG path data, and writes its lap file to the front of out. A refusal changes nothing.
pub fn read_course(text: &[u8], out: &mut [u8]) -> Result<usize, Refusal>
    ensures { Wrote (λ (bytes : List ℕ). bytes) (read_course text.now (length out.old)) out.old out.new result }
{
    if MOST_TEXT < text.len() {
        return Err(Refusal::TooMany);
    }
    let tally = walk_text(text)?;
    check_counts(tally, out.len())?;
    Ok(put_laps(text, tally.laps, out))
}
