// The coordinates by which a distance is taken: x and y, or x, y and z.
ghost use Rattle.std.specs.Prelude.{◌≡◌, List, Float};
ghost use Rattle.floats.specs.Ops.{◌⊕◌, ◌⊖◌, ◌⊗◌};
ghost use Rattle.geo.specs.declared.types.Point3D.{Point3D};
ghost use Rattle.segment.specs.Segment.{Axis, sum_over, segment_on};
ghost use Rattle.segment.specs.Axes.{HeldOn};

use geo::types::Point3D;

// A point, or an offset, by the coordinates that count.
pub trait Coordinates: Copy {
    ghost axes: { List Axis };

    // The one with these coordinates.
    ghost make: { (Axis → Float) → Self };

    // The squared distance of a point, the last, from the segment between two others, by these coordinates.
    ghost squared: { Point3D → Point3D → Point3D → Float };

    fn of(p: Point3D) -> Self
        ensures made { result ≡ make (λ c. c p) }
        ensures held { HeldOn axes p };

    fn minus(self, o: Self) -> Self
        ensures { (f g : Axis → Float) → self ≡ make f → o ≡ make g → result ≡ make (λ c. f c ⊖ g c) };

    fn plus(self, o: Self) -> Self
        ensures { (f g : Axis → Float) → self ≡ make f → o ≡ make g → result ≡ make (λ c. f c ⊕ g c) };

    // This point + t × o: both are operands, and a struct of them would be made for one call.
    fn beyond(self, t: f64, o: Self) -> Self
        ensures { (f g : Axis → Float) → self ≡ make f → o ≡ make g → result ≡ make (λ c. f c ⊕ t ⊗ g c) };

    fn dot(self, o: Self) -> f64
        ensures { (f g : Axis → Float) → self ≡ make f → o ≡ make g → result ≡ sum_over axes (λ c. f c ⊗ g c) };

    ghost measured: { (a b p : Point3D) → squared a b p ≡ segment_on axes a b p };
}
