// The commands of path data: each reader takes the front of a text, and gives a command of a course and the rest. What is public
// serves the crate `svg`.
ghost use Rattle.std.specs.Prelude.{◌≡◌, IfSome};
ghost use Rattle.svg_text.specs.Thousandths.{TenDigits};
ghost use Rattle.svg_text.specs.Path.{spaced, pair_of, command};
ghost use Rattle.svg_text.specs.Drawing.{place, drawn};
ghost use Rattle.svg_items.specs.Readings.{reading, mapped, bent};

use crate::figures::{from_thousandths, read_figure};
use geo::types::{Command, Point3D};

// A number behind a space.
#[tactic(auto, unfolding(svg_text::specs::Path::spaced))]
fn read_spaced(s: &[u8]) -> Option<(i64, &[u8])>
    ensures reads { reading result ≡ spaced s.now }
    ensures ten { IfSome result (λ n. TenDigits n.0) }
{
    match s {
        [b' ', behind @ ..] => read_figure(behind),
        _ => None,
    }
}

// A point: two numbers, each behind a space.
#[tactic(auto, unfolding(svg_text::specs::Path::pair_of, svg_text::specs::Path::and_then, svg_text::specs::Drawing::place))]
fn read_place(s: &[u8]) -> Option<(Point3D, &[u8])>
    ensures { reading result ≡ pair_of place s.now }
{
    let (x, s) = read_spaced(s)?;
    let (y, s) = read_spaced(s)?;
    let p = Point3D {
        x: from_thousandths(x),
        y: from_thousandths(y),
        z: 0.0,
    };
    Some((p, s))
}

// A curve, its letter read: its controls and then its end.
#[tactic(auto, using(crate::proofs::Drawing::curve_drawn), unfolding(svg_text::specs::Path::and_then))]
fn read_curve(s: &[u8]) -> Option<(Command, &[u8])>
    ensures { reading result ≡ mapped drawn (bent s.now) }
{
    let (control1, s) = read_place(s)?;
    let (control2, s) = read_place(s)?;
    let (end, s) = read_place(s)?;
    let c = Command::Bezier {
        end: end,
        control1: control1,
        control2: control2,
    };
    Some((c, s))
}

// A command.
#[tactic(auto, using(std::proofs::lemmas::Grind::common_steps, crate::proofs::Drawing::move_drawn, crate::proofs::Drawing::line_drawn), unfolding(svg_text::specs::Path::command, svg_text::specs::Path::and_then))]
pub fn read_stroke(s: &[u8]) -> Option<(Command, &[u8])>
    ensures { reading result ≡ mapped drawn (command s.now) }
{
    match s {
        [b'M', behind @ ..] => {
            let (end, rest) = read_place(behind)?;
            Some((Command::Move { end: end }, rest))
        }
        [b'L', behind @ ..] => {
            let (end, rest) = read_place(behind)?;
            Some((Command::Line { end: end }, rest))
        }
        [b'C', behind @ ..] => read_curve(behind),
        _ => None,
    }
}
