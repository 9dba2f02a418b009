// The input of `lapfit`: eight bytes of tolerance, then a lap file.
ghost use Rattle.std.specs.Prelude.{List, ℕ, length};
ghost use Rattle.geo.specs.Wrote.{Wrote};
ghost use Rattle.printing.specs.Input.{list_input};

use file::words::number_at;
use geo::refusal::Refusal;
use lap_rows::lap_rows::list_file;

// Lists the file behind the tolerance, to the front of out.
// The input and the output are what `run` lends to a program, a shared and an exclusive borrow, so they are no struct, here and in the programs.
pub fn list_input(input: &[u8], out: &mut [u8]) -> Result<usize, Refusal>
    ensures { Wrote (λ (bytes : List ℕ). bytes) (list_input input.now (length out.old)) out.old out.new result }
{
    if input.len() < 16 {
        return Err(Refusal::NotWhole);
    }
    let tolerance = number_at(input, 0);
    list_file(&input[8..], tolerance, out)
}
