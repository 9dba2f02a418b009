// One Arc command drawn by Lines (document 02, §6).
ghost use Rattle.std.specs.Prelude.{length};
ghost use Rattle.flatten.specs.Calls.{flatten_call};
ghost use Rattle.exports.specs.Plain.{point3, ListedCommands};

use crate::counts::hand_cause;
use geo::types::Point3D;

// Draws the Arc command of this kind and these nine numbers, from its start (x, y, z) on, by Lines. The kind is a byte, as C gives it.
#[unsafe(no_mangle)]
pub extern "C" fn pz_flatten_arc(
    kind: u8,
    command: &[f64],
    x: f64,
    y: f64,
    z: f64,
    tolerance: f64,
    kinds: &mut [u8],
    nums: &mut [f64],
    count: &mut usize,
) -> u32
    ensures { ListedCommands (flatten_call kind command.now (point3 x y z) tolerance (length kinds.old) (length nums.old)) kinds.old kinds.new nums.old nums.new count.old count.new result }
{
    let start = Point3D { x, y, z };
    hand_cause(
        flatten::flatten::flatten_arc(kind, command, start, tolerance, kinds, nums),
        count,
    )
}
