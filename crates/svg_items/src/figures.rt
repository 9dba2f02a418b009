// The numbers of path data: each reader takes the front of a text, and gives what it read, in whole thousandths, and the rest. What
// is public serves the commands alone.
ghost use Rattle.std.specs.Prelude.{◌≡◌, ◌+◌, ◌*◌, ◌^◌, ◌≤◌, IfSome};
ghost use Rattle.svg_text.specs.Thousandths.{TenDigits, float_of};
ghost use Rattle.svg_text.specs.Path.{decimals, unsigned, number};
ghost use Rattle.svg_text.specs.Spelling.{with_sign};
ghost use Rattle.svg_items.specs.Readings.{reading, IsRun};

use svg_text::letters::{MOST_DECIMALS, MOST_DIGITS};

// Digits that were read: their value, how many more there might have been, and the text behind them.
#[derive(Clone, Copy)]
pub struct Run<'a> {
    pub value: u64,
    pub room: usize,
    pub rest: &'a [u8],
}

// The value v goes on with the digits at the front, at most `most` of them.
fn more_digits(s: &[u8], v: u64, most: usize) -> Run<'_>
    requires { (v + 1) * 10 ^ most ≤ 10000000000 }
    ensures { IsRun v most s.now result }
{
    let mut value = v;
    for i in 0..most {
        if i == s.len() || !s[i].is_ascii_digit() {
            return Run {
                value: value,
                room: most - i,
                rest: &s[i..],
            };
        }
        value = 10 * value + u64::from(s[i] - b'0');
    }
    Run {
        value: value,
        room: 0,
        rest: &s[most..],
    }
}

// Ten to a power below three: a `match`, since the library's `pow` would multiply in a loop for these three.
fn noughts(room: usize) -> u64
    requires { room ≤ 2 }
    ensures { result ≡ 10 ^ room }
{
    match room {
        0 => 1,
        1 => 10,
        _ => 100,
    }
}

// The thousandths of v units and of the decimals that may follow.
#[tactic(auto, unfolding(svg_text::specs::Path::decimals, svg_text::specs::Path::in_thousandths))]
fn read_decimals(s: &[u8], v: u64) -> Option<(u64, &[u8])>
    requires { v + 1 ≤ 10000000 }
    ensures reads { reading result ≡ decimals v s.now }
    ensures ten { IfSome result (λ n. n.0 ≤ 9999999999) }
{
    let [b'.', behind @ ..] = s else {
        return Some((v * 1000, s));
    };
    let d = more_digits(behind, v, MOST_DECIMALS);
    if d.room == MOST_DECIMALS {
        return None;
    }
    Some((d.value * noughts(d.room), d.rest))
}

// A number without a sign.
#[tactic(auto, using(crate::proofs::Digits::few_units), unfolding(svg_text::specs::Path::unsigned, svg_text::specs::Path::units))]
fn read_unsigned(s: &[u8]) -> Option<(u64, &[u8])>
    ensures reads { reading result ≡ unsigned s.now }
    ensures ten { IfSome result (λ n. n.0 ≤ 9999999999) }
{
    let d = more_digits(s, 0, MOST_DIGITS);
    if d.room == MOST_DIGITS {
        return None;
    }
    read_decimals(d.rest, d.value)
}

// An amount with its sign; −0 is 0.
fn with_sign(minus: bool, v: u64) -> i64
    requires { v ≤ 9999999999 }
    ensures { result ≡ with_sign minus v }
{
    if minus { -(v as i64) } else { v as i64 }
}

// A number.
#[tactic(auto, unfolding(svg_text::specs::Path::number, svg_text::specs::Path::signed))]
pub fn read_figure(s: &[u8]) -> Option<(i64, &[u8])>
    ensures reads { reading result ≡ number s.now }
    ensures ten { IfSome result (λ n. TenDigits n.0) }
{
    let (minus, amount) = match s {
        [b'-', behind @ ..] => (true, behind),
        _ => (false, s),
    };
    let (v, rest) = read_unsigned(amount)?;
    Some((with_sign(minus, v), rest))
}

// The thousandths of a unit.
const UNIT: f64 = 1000.0;

// The float of a number in thousandths: "its thousandths divided once by 1000".
pub fn from_thousandths(v: i64) -> f64
    requires { TenDigits v }
    ensures { result ≡ float_of v }
{
    (v as f64) / UNIT
}
