// Courses drawn as SVG path data. A text and a file pass as their bytes, and the count is that of the file's bytes.
ghost use Rattle.std.specs.Prelude.{List, ℕ, length};
ghost use Rattle.svg.specs.Course.{read_course};
ghost use Rattle.exports.specs.Plain.{Listed};

use crate::counts::hand_cause;

// Reads path data into a lap file.
#[unsafe(no_mangle)]
pub extern "C" fn pz_read_course(text: &[u8], out: &mut [u8], count: &mut usize) -> u32
    ensures { Listed (λ (bytes : List ℕ). bytes) (read_course text.now (length out.old)) out.old out.new count.old count.new result }
{
    hand_cause(svg::reading::read_course(text, out), count)
}
