// The square root, rounded as IEEE 754 says: the processor's operation, wherever there is a root.
ghost use Rattle.std.specs.Prelude.{◌≡◌, T};
ghost use Rattle.floats.specs.Ops.{◌≺◌};
ghost use Rattle.floats.specs.Root.{root_of, plain, Rounded};

// The square root of any x: that of a negative number or a NaN is a NaN, that of −0 is −0. For a finite x from +0 up
// the second clause is IEEE 754's own: no `f64` lies nearer to the exact root, and a tie goes to the even one.
pub fn sqrt(x: f64) -> f64
    ensures value { result ≡ root_of x }
    ensures rounded { T (plain x) → Rounded x result }
{
    if x.is_nan() {
        return x;
    }
    // The processor is not asked: it would set the sign of the NaN, and may trap.
    if x < 0.0 {
        return 0.0 / 0.0;
    }
    x.sqrt()
}

// Whether the root of x is below t. Above the square of t it is not, and that of a zero is: only what lies between needs its root.
pub fn is_root_below(x: f64, t: f64) -> bool
    ensures { result ≡ (root_of x ≺ t) }
{
    if t > 0.0 {
        if x > t * t {
            return false;
        }
        if x == 0.0 {
            return true;
        }
    }
    sqrt(x) < t
}
