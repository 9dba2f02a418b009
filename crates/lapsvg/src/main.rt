// Reads a course of SVG path data from standard input, and writes its lap file to standard output. A refusal prints one line.
#![tactic(auto)]

ghost use Rattle.std.specs.Prelude.{◌≡◌, ◌++◌, length, drop};
ghost use Rattle.lapsvg.specs.Output.{most_file, lapsvg_bytes};

use printing::program::{print_answer, run};
use std::io;
use svg::reading::read_course;

// The longest text, and one byte more, by which a longer one is told.
const INPUT: usize = 65537;

// A file of 64 laps and 800 commands.
const OUTPUT: usize = 58920;

// Writes what the program prints to the front of out, and answers how many bytes it has. Input and output are what `run` lends.
fn print_input(input: &[u8], out: &mut [u8]) -> usize
    requires { length out.old ≡ most_file }
    ensures count { result ≡ length (lapsvg_bytes input.now) }
    ensures bytes { out.new ≡ lapsvg_bytes input.now ++ drop (length (lapsvg_bytes input.now)) out.old }
{
    print_answer(read_course(input, out), out)
}

fn main(rt: HostRuntime) -> io::Result<()> {
    run::<_, INPUT, OUTPUT>(&rt, print_input)
}
