// Points by x and y: the measure of the lap fit, the lap replacement and `fit_arcs`.
ghost use Rattle.segment.specs.Segment.{plane, segment_sq};
ghost use Rattle.segment.specs.Axes.{plane_point, plane_measured};

use crate::coordinates::Coordinates;
use geo::types::{Point, Point3D};

impl Coordinates for Point {
    ghost axes = { plane };

    ghost make = { plane_point };

    ghost squared = { segment_sq };

    ghost measured = { plane_measured };

    fn of(p: Point3D) -> Self {
        p.truncate()
    }

    fn minus(self, o: Self) -> Self {
        Self {
            x: self.x - o.x,
            y: self.y - o.y,
        }
    }

    fn plus(self, o: Self) -> Self {
        Self {
            x: self.x + o.x,
            y: self.y + o.y,
        }
    }

    // Both are operands, as the trait says.
    fn beyond(self, t: f64, o: Self) -> Self {
        Self {
            x: self.x + t * o.x,
            y: self.y + t * o.y,
        }
    }

    fn dot(self, o: Self) -> f64 {
        self.x * o.x + self.y * o.y
    }
}
