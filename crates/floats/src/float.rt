// Absolute value, ceiling, and the Rust's `max` and `clamp`.
ghost use Rattle.std.specs.Prelude.{◌≡◌, T};
ghost use Rattle.std.specs.Float.Ieee.Scale.{finite};
ghost use Rattle.floats.specs.Float.{abs_of, ceil_of, LeastWhole, max_of, clamp_of};

// x without its sign; a NaN stays one. The library's `abs` makes two comparisons, this one.
pub fn abs(x: f64) -> f64
    ensures { result ≡ abs_of x }
{
    if x.is_nan() {
        return x;
    }
    f64::from_bits(f64::to_bits(x) % 0x8000_0000_0000_0000)
}

// The ceiling of any x; NaN, the infinities and both zeros are their own. For a finite x the second clause says it
// without the formula: the least whole number that is not below x, with the sign of x.
pub fn ceil(x: f64) -> f64
    ensures value { result ≡ ceil_of x }
    ensures least { T (finite x) → LeastWhole x result }
{
    x.ceil()
}

// The Rust's `a.max(b)`: the greater; the other where one is a NaN; `a` where neither is greater. The library's `max` leaves open
// which of two zeros it gives.
pub fn max(a: f64, b: f64) -> f64
    ensures { result ≡ max_of a b }
{
    if a < b {
        return b;
    }
    if a.is_nan() {
        return b;
    }
    a
}

// The Rust's `x.clamp(least, most)`: the end of least..most beyond which x lies, else x; a NaN stays one. The library's
// asks of its callers that the ends are in order.
pub fn clamp(x: f64, least: f64, most: f64) -> f64
    ensures { result ≡ clamp_of x least most }
{
    if x < least {
        return least;
    }
    if x > most {
        return most;
    }
    x
}
