// The midpoint.
ghost use Rattle.geo.specs.Lent.{triple};
ghost use Rattle.geo.specs.Midpoint.{midpoint_call};
ghost use Rattle.exports.specs.Plain.{point3, Gave};

use geo::lent::put_point;
use geo::types::Point3D;

// The midpoint of two points.
#[unsafe(no_mangle)]
pub extern "C" fn pz_get_midpoint_3d(
    ax: f64,
    ay: f64,
    az: f64,
    bx: f64,
    by: f64,
    bz: f64,
    answer: &mut [f64; 3],
) -> u32
    ensures { Gave triple (midpoint_call (point3 ax ay az) (point3 bx by bz)) answer.old answer.new result }
{
    let a = Point3D {
        x: ax,
        y: ay,
        z: az,
    };
    let b = Point3D {
        x: bx,
        y: by,
        z: bz,
    };
    match geo::point::get_midpoint_3d(a, b) {
        Ok(p) => {
            put_point(answer, 0, p);
            0
        }
        Err(cause) => u32::from(cause),
    }
}
