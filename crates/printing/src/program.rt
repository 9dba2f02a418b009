// What the programs do: read standard input into a buffer, and print what is made of it, or the line of a refusal.
ghost use Rattle.std.specs.Prelude.{◌≡◌, ◌≤◌, ◌<◌, length, IfOk, IfErr};
ghost use Rattle.geo.specs.Refusal.{number};
ghost use Rattle.lap_text.specs.Text.{refusal_text};
ghost use Rattle.lap_text.specs.Left.{TextPut};
ghost use Rattle.printing.specs.Program.{MayPrint, PrintsWithin};

use crate::rest::drain;
use buffers::read_full;
use geo::refusal::Refusal;
use lap_text::text::put_refusal;
use std::io;
use std::io::{Input, Print};

// Answers how many bytes of the output a program prints: those that a call wrote there, or the line of its refusal, which is written now.
pub fn print_answer(answer: Result<usize, Refusal>, out: &mut [u8]) -> usize
    requires { 12 ≤ length out.old }
    ensures given { IfOk answer (λ n. (result ≡ n) × (out.new ≡ out.old)) }
    ensures refused { IfErr answer (λ cause. TextPut (refusal_text (number cause)) out.old out.new 0 result) }
{
    match answer {
        Ok(n) => n,
        Err(cause) => put_refusal(u32::from(cause), out),
    }
}

// Reads standard input to its end, of which the first INPUT bytes count, and prints what `print` writes to the front of a buffer of
// OUTPUT bytes.
pub fn run<F: Fn(&[u8], &mut [u8]) -> usize, const INPUT: usize, const OUTPUT: usize>(
    rt: &(impl Input + Print),
    print: F,
) -> io::Result<()>
    requires sizes { (INPUT < 9223372036854775808) × (OUTPUT < 9223372036854775808) }
    requires may { MayPrint OUTPUT (F.pre print) }
    requires within { PrintsWithin OUTPUT (F.post print) }
{
    let mut input = [0u8; INPUT];
    let mut out = [0u8; OUTPUT];
    let mut reader = rt.reader();
    let n = read_full(&mut reader, &mut input)?;
    drain(&mut reader, n, INPUT)?;
    let m = print(&input[..n], &mut out);
    rt.write_all(&out[..m])
}
