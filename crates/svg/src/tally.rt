// The first walk over a text: whether it keeps the rules, how many laps and commands it has, and whether its numbers lie in the
// domain. It serves the reading alone, which has told a text that is too long before.
ghost use Rattle.std.specs.Prelude.{◌≡◌, true, ◌≤◌, length};
ghost use Rattle.geo.specs.Refusal.{outcome};
ghost use Rattle.svg_text.specs.Path.{named};
ghost use Rattle.svg.specs.Tally.{tally_of};

use geo::domain::command_in;
use geo::refusal::Refusal;
use geo::types::Command;
use svg_items::strokes::read_stroke;

// How many laps and commands there are, and whether each number lies in the domain.
#[derive(Clone, Copy)]
pub struct Tally {
    pub laps: usize,
    pub commands: usize,
    pub inside: bool,
}

// Walks over the commands of a text.
pub fn walk_text(s: &[u8]) -> Result<Tally, Refusal>
    requires { length s.now ≤ 65536 }
    ensures { outcome result ≡ tally_of 0 0 true (named s.now) }
{
    let mut laps = 0;
    let mut commands = 0;
    let mut inside = true;
    if s.is_empty() {
        return Ok(Tally {
            laps: laps,
            commands: commands,
            inside: inside,
        });
    }
    if s[0] != b'M' {
        return Err(Refusal::BadText);
    }
    let mut rest = s;
    // It ends where the text does, or at the first fault: a `fold` would carry three values and the rest, and leave early all the same.
    loop {
        let Some((c, behind)) = read_stroke(rest) else {
            return Err(Refusal::BadText); // so a trailing space is refused
        };
        laps += usize::from(matches!(c, Command::Move { .. }));
        commands += 1;
        inside = inside && command_in(c);
        if behind.is_empty() {
            return Ok(Tally {
                laps: laps,
                commands: commands,
                inside: inside,
            });
        }
        if behind[0] != b' ' {
            return Err(Refusal::BadText);
        }
        rest = &behind[1..];
    }
}
