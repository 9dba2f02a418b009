// src/constants.rs, whole. No function that is carried over names one of these; what is promised of them is their values.
ghost use Rattle.std.specs.Prelude.{◌≡◌};
ghost use Rattle.geo.specs.Constants.{constants};

// Tolerance for detecting when two 2D points are close enough to skip a move-to command.
pub const EPSILON_GAP_CLOSE: f64 = 1e-6;

// Tolerance for treating a segment as degenerate (zero length).
pub const EPSILON_COLLINEAR: f64 = 1e-9;

// Tolerance for intersection endpoint comparisons.
pub const EPSILON_INTERSECT: f64 = 1e-12;

// Clipper integer coordinate scale factor (10^7).
pub const CLIPPER_SCALE: f64 = 10000000.0;

// Tolerance for collision and overlap detection in nesting.
pub const EPSILON_NEST: f64 = 1e-4;

// Tolerance for geometric comparisons (mid-precision).
pub const EPSILON_MEDIUM: f64 = 1e-5;

// Tolerance used when comparing against zero in line merging.
pub const EPSILON_MERGE: f64 = 1e-5;

// Tolerance for boundary and island extraction from geometry.
pub const EPSILON_BOUNDARY: f64 = 0.1;

// The eight, in the order in which they stand above.
fn values() -> [f64; 8]
    ensures { result ≡ constants }
{
    [
        EPSILON_GAP_CLOSE,
        EPSILON_COLLINEAR,
        EPSILON_INTERSECT,
        CLIPPER_SCALE,
        EPSILON_NEST,
        EPSILON_MEDIUM,
        EPSILON_MERGE,
        EPSILON_BOUNDARY,
    ]
}
