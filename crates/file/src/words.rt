// Whole numbers and floats as bytes, the lowest first.
ghost use Rattle.std.specs.Prelude.{◌≡◌, ◌+◌, ◌%◌, ◌≤◌, ◌<◌, length};
ghost use Rattle.std.proofs.lemmas.List.Edits.{sets};
ghost use Rattle.std.specs.Float.{binary64};
ghost use Rattle.std.specs.Float.Ieee.{nan_bits, of_bits, to_bits};
ghost use Rattle.geo.specs.Domain.{is_plus_zero};
ghost use Rattle.file.specs.Bytes.{half_at, word_at, u32_bytes, f64_bytes, number_at};

// The number in the four bytes of s from `at` on.
// A place among bytes is a slice and an index, here and below, as in the library: each call is of one line and asks for as many bytes as
// it reads or writes, and a struct would be made and opened at each.
pub fn half_at(s: &[u8], at: usize) -> u64
    requires { at + 4 ≤ length s.now }
    ensures { (result ≡ half_at s.now at) × (result < 0x1_0000_0000) }
{
    u64::from(u32::from_le_bytes([s[at], s[at + 1], s[at + 2], s[at + 3]]))
}

// The word in the eight bytes of s from `at` on. `from_le_bytes` would name the eight one by one, and be no plainer than two halves.
pub fn word_at(s: &[u8], at: usize) -> u64
    requires { at + 8 ≤ length s.now }
    ensures { result ≡ word_at s.now at }
{
    half_at(s, at) + half_at(s, at + 4) * 0x1_0000_0000
}

// Whether the pattern is a NaN's.
pub fn is_nan(p: u64) -> bool
    ensures { result ≡ nan_bits binary64 p }
{
    0x7ff0_0000_0000_0000 < p % 0x8000_0000_0000_0000
}

// The float of a pattern. A NaN has many patterns, and one NaN stands for all.
pub fn float_of(p: u64) -> f64
    ensures { result ≡ of_bits binary64 p }
{
    if is_nan(p) {
        return 0.0 / 0.0;
    }
    f64::from_bits(p)
}

// The number whose eight bytes stand from `at` on.
pub fn number_at(s: &[u8], at: usize) -> f64
    requires { at + 8 ≤ length s.now }
    ensures { result ≡ number_at s.now at }
{
    float_of(word_at(s, at))
}

// Whether the number whose eight bytes stand from `at` on is +0, the pattern 0.
pub fn is_plus_zero_at(s: &[u8], at: usize) -> bool
    requires { at + 8 ≤ length s.now }
    ensures { result ≡ is_plus_zero (number_at s.now at) }
{
    let low = half_at(s, at);
    let high = half_at(s, at + 4);
    low == 0 && high == 0
}

// Writes the four low bytes of n from `at` on.
pub fn put_u32(out: &mut [u8], at: usize, n: u64)
    requires { at + 4 ≤ length out.old }
    ensures { out.new ≡ sets out.old at (u32_bytes n) }
{
    // Stored one by one, so that the wrong program that exchanges two of them has its place.
    let [a, b, c, d] = ((n % 0x1_0000_0000) as u32).to_le_bytes();
    out[at] = a;
    out[at + 1] = b;
    out[at + 2] = c;
    out[at + 3] = d;
}

// The pattern of x. A NaN has many, and one stands for all.
fn pattern_of(x: f64) -> u64
    ensures { result ≡ to_bits binary64 x }
{
    if x.is_nan() {
        return 0x7ff8_0000_0000_0000;
    }
    f64::to_bits(x)
}

// Writes the eight bytes of x from `at` on.
pub(crate) fn put_f64(out: &mut [u8], at: usize, x: f64)
    requires { at + 8 ≤ length out.old }
    ensures { out.new ≡ sets out.old at (f64_bytes x) }
{
    out[at..at + 8].copy_from_slice(&pattern_of(x).to_le_bytes());
}
