// Reads eight bytes of tolerance, then a lap file, from standard input. A refusal prints one line. An accepted file prints
// the listing of its fit: lap, kind letter and steps of each command that the fit writes, and the sum of the steps under them.
#![tactic(auto)]

ghost use Rattle.std.specs.Prelude.{◌≡◌, ◌++◌, length, drop};
ghost use Rattle.lap_rows.specs.Listing.{most_text};
ghost use Rattle.lapfit.specs.Input.{lapfit_text};

use printing::input::list_input;
use printing::program::{print_answer, run};
use std::io;

// Eight bytes, the largest file, and one byte more, by which a larger one is told.
const INPUT: usize = 65545;

// The first line, 800 rows and the sum.
const OUTPUT: usize = 7225;

// Writes what the program prints to the front of out, and answers how many bytes it has. Input and output are what `run` lends.
fn print_input(input: &[u8], out: &mut [u8]) -> usize
    requires { length out.old ≡ most_text 800 }
    ensures count { result ≡ length (lapfit_text input.now) }
    ensures text { out.new ≡ lapfit_text input.now ++ drop (length (lapfit_text input.now)) out.old }
{
    print_answer(list_input(input, out), out)
}

fn main(rt: HostRuntime) -> io::Result<()> {
    run::<_, INPUT, OUTPUT>(&rt, print_input)
}
