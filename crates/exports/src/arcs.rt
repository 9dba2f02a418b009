// The direction of an arc.
ghost use Rattle.arc.specs.Direction.{direction_call};
ghost use Rattle.exports.specs.Plain.{plane_point, Told};

use geo::types::Point;

// Whether points go clockwise round a centre.
#[unsafe(no_mangle)]
pub extern "C" fn pz_is_arc_clockwise(points: &[f64], cx: f64, cy: f64, clockwise: &mut bool) -> u32
    ensures { Told (λ b. b) (direction_call points.now (plane_point cx cy)) clockwise.old clockwise.new result }
{
    let center = Point { x: cx, y: cy };
    match arc::arc::is_arc_clockwise(points, center) {
        Ok(b) => {
            *clockwise = b;
            0
        }
        Err(cause) => u32::from(cause),
    }
}
