// The helpers on `f64`.
ghost use Rattle.std.specs.Prelude.{◌≡◌, T};
ghost use Rattle.std.specs.Float.Ieee.Scale.{finite};
ghost use Rattle.floats.specs.Root.{root_of, plain, Rounded};
ghost use Rattle.floats.specs.Float.{abs_of, ceil_of, LeastWhole, max_of, clamp_of};

// The square root of any x.
#[unsafe(no_mangle)]
pub extern "C" fn pz_sqrt(x: f64) -> f64
    ensures value { result ≡ root_of x }
    ensures rounded { T (plain x) → Rounded x result }
{
    floats::root::sqrt(x)
}

// The least whole number that is not below x.
#[unsafe(no_mangle)]
pub extern "C" fn pz_ceil(x: f64) -> f64
    ensures value { result ≡ ceil_of x }
    ensures least { T (finite x) → LeastWhole x result }
{
    floats::float::ceil(x)
}

// x without its sign.
#[unsafe(no_mangle)]
pub extern "C" fn pz_abs(x: f64) -> f64
    ensures { result ≡ abs_of x }
{
    floats::float::abs(x)
}

// The greater of a and b.
#[unsafe(no_mangle)]
pub extern "C" fn pz_max(a: f64, b: f64) -> f64
    ensures { result ≡ max_of a b }
{
    floats::float::max(a, b)
}

// x, kept within least..most.
#[unsafe(no_mangle)]
pub extern "C" fn pz_clamp(x: f64, least: f64, most: f64) -> f64
    ensures { result ≡ clamp_of x least most }
{
    floats::float::clamp(x, least, most)
}
