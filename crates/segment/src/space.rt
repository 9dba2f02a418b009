// Points by x, y and z: the measure of the fit for hills.
ghost use Rattle.segment.specs.Segment.{spatial, space_sq};
ghost use Rattle.segment.specs.Axes.{space_point, space_measured};

use crate::coordinates::Coordinates;
use geo::types::Point3D;

impl Coordinates for Point3D {
    ghost axes = { spatial };

    ghost make = { space_point };

    ghost squared = { space_sq };

    ghost measured = { space_measured };

    fn of(p: Point3D) -> Self {
        p
    }

    fn minus(self, o: Self) -> Self {
        Self {
            x: self.x - o.x,
            y: self.y - o.y,
            z: self.z - o.z,
        }
    }

    fn plus(self, o: Self) -> Self {
        Self {
            x: self.x + o.x,
            y: self.y + o.y,
            z: self.z + o.z,
        }
    }

    // Both are operands, as the trait says.
    fn beyond(self, t: f64, o: Self) -> Self {
        Self {
            x: self.x + t * o.x,
            y: self.y + t * o.y,
            z: self.z + t * o.z,
        }
    }

    fn dot(self, o: Self) -> f64 {
        self.x * o.x + self.y * o.y + self.z * o.z
    }
}
