// The text of a listing: its lines, their digits, and the line of a refusal. Each function writes bytes to a lent buffer and not by
// `write!`, whose contract allows an error at any writer: these promise each byte, and cannot fail. The output is lent whole, with
// the place to write at: a part of it at each call, and its start added to each answer, would be no plainer.
ghost use Rattle.std.specs.Prelude.{◌≡◌, ◌+◌, ◌*◌, ◌<◌, ◌≤◌, length};
ghost use Rattle.listing.specs.Rows.{steps_in, sum_of};
ghost use Rattle.lap_text.specs.Text.{decimal, refusal_text, row_text, rows_text, total_text};
ghost use Rattle.lap_text.specs.Left.{TextPut, listed, rows_from};

use crate::bytes;
use listing::listing::letter;

// Writes a number's decimal digits from `at` on, and answers where they end. The number n is no length: it and the place are each call's own.
// That a number has three digits at most, or a lap's two, is a clause here and below: a type would hold the one number, and be made for each call.
#[tactic(auto, using(std::proofs::lemmas::Grind::common_steps, crate::proofs::Decimal::one_digit, crate::proofs::Decimal::two_digits, crate::proofs::Decimal::three_digits))]
fn put_decimal(out: &mut [u8], at: usize, n: usize) -> usize
    requires { (n < 1000) × (at + length (decimal n) ≤ length out.old) }
    ensures { TextPut (decimal n) out.old out.new at result }
{
    if n < 10 {
        out[at] = b'0' + n as u8;
        return at + 1;
    }
    if n < 100 {
        out[at] = b'0' + (n / 10) as u8;
        out[at + 1] = b'0' + (n % 10) as u8;
        return at + 2;
    }
    out[at] = b'0' + (n / 100) as u8;
    out[at + 1] = b'0' + (n / 10 % 10) as u8;
    out[at + 2] = b'0' + (n % 10) as u8;
    at + 3
}

// Writes the line of a refusal to the front of out, and answers where it ends.
#[tactic(auto, using(std::proofs::lemmas::Grind::common_steps, crate::proofs::Decimal::below_100, crate::proofs::Decimal::below_1000))]
pub fn put_refusal(number: u32, out: &mut [u8]) -> usize
    requires { (number < 1000) × (12 ≤ length out.old) }
    ensures { TextPut (refusal_text number) out.old out.new 0 result }
{
    let at = bytes::copy(b"refused,", out);
    let end = put_decimal(out, at, number as usize);
    out[end] = b'\n';
    end + 1
}

// Writes one line from `at` on, and answers where it ends: lap, kind letter, steps. The kind is the byte of a lent list.
#[tactic(auto, using(std::proofs::lemmas::Grind::common_steps, crate::proofs::Decimal::below_100, crate::proofs::Decimal::below_1000))]
fn put_row(out: &mut [u8], at: usize, lap: usize, kind: u8, steps: usize) -> usize
    requires { (lap < 100) × (steps < 1000) × (at + 9 ≤ length out.old) }
    ensures { TextPut (row_text lap (listed kind steps)) out.old out.new at result }
{
    let a = put_decimal(out, at, lap);
    out[a] = b',';
    out[a + 1] = letter(kind);
    out[a + 2] = b',';
    let b = put_decimal(out, a + 3, steps);
    out[b] = b'\n';
    b + 1
}

// What rows add to a listing: where their text ends, and how many steps they give together.
#[derive(Clone, Copy)]
pub struct Added {
    pub end: usize,
    pub steps: usize,
}

// Writes the rows of a lap from `at` on. Their kinds and their steps stand in two columns, as `fit_course_with_steps` writes them. They are read
// by index in a `for`: the contract's rows are read by index too, and a `fold` would carry the output besides both numbers.
pub fn put_rows(kinds: &[u8], steps: &[u32], lap: usize, out: &mut [u8], at: usize) -> Added
    requires { (lap < 100) × (length kinds.now ≤ length steps.now) × (sum_of (steps_in (rows_from kinds.now steps.now (length kinds.now) 0)) < 1000) × (at + 9 * length kinds.now ≤ length out.old) }
    ensures text { TextPut (rows_text lap (rows_from kinds.now steps.now (length kinds.now) 0)) out.old out.new at result.end }
    ensures sum { result.steps ≡ sum_of (steps_in (rows_from kinds.now steps.now (length kinds.now) 0)) }
{
    let mut to = at;
    let mut sum = 0;
    for i in 0..kinds.len() {
        let covered = steps[i] as usize;
        to = put_row(out, to, lap, kinds[i], covered);
        sum += covered;
    }
    Added {
        end: to,
        steps: sum,
    }
}

// Writes the last line, the sum of the steps, from `at` on, and answers where it ends.
#[tactic(auto, using(std::proofs::lemmas::Grind::common_steps, crate::proofs::Decimal::below_100, crate::proofs::Decimal::below_1000))]
pub fn put_total(out: &mut [u8], at: usize, total: usize) -> usize
    requires { (total < 1000) × (at + 10 ≤ length out.old) }
    ensures { TextPut (total_text total) out.old out.new at result }
{
    let a = at + bytes::copy(b"total,", &mut out[at..]);
    let b = put_decimal(out, a, total);
    out[b] = b'\n';
    b + 1
}
