// What the replays of recorded calls share: floats by their patterns, and lists of words as numbers or kinds; and, in `layout`, how a
// recorded call of a geometric function is laid out.
#![tactic(auto)]

pub mod layout;

ghost use Rattle.std.specs.Prelude.{◌≡◌, ◌-◌, ◌/◌, ◌≤◌, length, get_or};
ghost use Rattle.geo.specs.Domain.{every_from};
ghost use Rattle.std.proofs.lemmas.List.Edits.{sets};
ghost use Rattle.records.specs.Words.{has_pattern, numbers_at, numbers_written, bytes_written};

use file::words::{float_of, is_nan, word_at};

// Whether x has the pattern, or both are a NaN. Numbers are not compared, since -0 == 0.
pub fn has_pattern(x: f64, p: u64) -> bool
    ensures { result ≡ has_pattern x p }
{
    if x.is_nan() {
        return is_nan(p);
    }
    f64::to_bits(x) == p
}

// Reads the numbers that s has, eight bytes each, to the front of `numbers`.
pub fn read_numbers(s: &[u8], numbers: &mut [f64])
    requires { length s.now / 8 ≤ length numbers.old }
    ensures { numbers.new ≡ sets numbers.old 0 (numbers_at s.now 0 (length s.now / 8)) }
{
    for i in 0..s.len() / 8 {
        numbers[i] = float_of(word_at(s, 8 * i));
    }
}

// Whether s has the patterns of the first numbers of out, eight bytes each.
pub fn are_numbers_written(s: &[u8], out: &[f64]) -> bool
    requires { length s.now / 8 ≤ length out.now }
    ensures { result ≡ numbers_written s.now 0 (length s.now / 8) out.now }
{
    // A number has eight bytes in the one list and one place in the other, so it goes by index: in an `all` both bounds would be a closure's
    // contract.
    for i in 0..s.len() / 8 {
        if !has_pattern(out[i], word_at(s, 8 * i)) {
            return false;
        }
    }
    true
}

// Whether the bytes of s are the first of `bytes`.
pub fn are_bytes_written(s: &[u8], bytes: &[u8]) -> bool
    requires { length s.now ≤ length bytes.now }
    ensures { result ≡ bytes_written s.now 0 (length s.now) bytes.now }
{
    let n = s.len();
    bytes[..n] == s[..]
}

// Whether the known value still stands at each index from `from` on and below `to`. Both ends are given, as the definition has them, which
// goes over the indices of the whole output: over a slice of it each index would be moved.
pub fn are_left<T: PartialEq + Copy>(out: &[T], from: usize, to: usize, known: T) -> bool
    requires { to ≤ length out.now }
    ensures { (none : T) → result ≡ every_from (λ i. T.eq (get_or out.now i none) known) (to - from) from }
{
    for i in from..to {
        if out[i] != known {
            return false;
        }
    }
    true
}
