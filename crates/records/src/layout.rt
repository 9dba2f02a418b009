// A recorded call: a head of 14 words, what is lent to the call, and what it has to write. oracle/src/geometry/list.rs says
// how it is laid out, and makes it.
ghost use Rattle.std.specs.Prelude.{◌≡◌, ◌&&◌, ◌+◌, ◌*◌, true, false, ◌≤◌, length};
ghost use Rattle.floats.specs.Limits.{untouched};
ghost use Rattle.records.specs.Record.{IsHead, Whole, lent_size, body_bytes, is_answered, is_output};
ghost use Rattle.records.specs.Words.{numbers_written, bytes_written, numbers_left, bytes_left};

use crate::{are_bytes_written, are_left, are_numbers_written};
use file::words::word_at;

// The bytes of a head.
pub const HEAD_SIZE: usize = 112;

// The most bytes behind a head: what the greatest counts give.
pub const BODY_SIZE: usize = 618400;

// The greatest counts: numbers that are lent, numbers of an output, and bytes.
pub const NUMBERS: usize = 7300;

pub const ROOM: usize = 37000;

pub const BYTES: usize = 66000;

// What stands in the lent outputs before a call.
pub const BEFORE: f64 = -123456.789;

pub const BEFORE_BYTE: u8 = 200;

#[derive(Clone, Copy)]
pub struct Head {
    pub function: u64,
    // the pattern of the tolerance, of a Bezier's parameter or of its resolution
    pub value: u64,
    // a range's start and end; the first is also a count of steps, a depth, a lap or a truth
    pub first: usize,
    pub second: usize,
    // what is lent: numbers, kinds, the bytes of a recorded and of a fitted file
    pub numbers: usize,
    pub kinds: usize,
    pub recorded: usize,
    pub fitted: usize,
    // the room of the outputs: numbers, and bytes, which are kinds or a file
    pub room: usize,
    pub space: usize,
    // the expected refusal or 0, and the expected count
    pub refusal: u64,
    pub count: u64,
    // how many numbers, and bytes, are written
    pub written: usize,
    pub stored: usize,
}

// The words of a head.
pub fn head_of(s: &[u8; 112]) -> Head
    ensures { IsHead s.now result }
{
    Head {
        function: word_at(s, 0),
        value: word_at(s, 8),
        first: word_at(s, 16) as usize,
        second: word_at(s, 24) as usize,
        numbers: word_at(s, 32) as usize,
        kinds: word_at(s, 40) as usize,
        recorded: word_at(s, 48) as usize,
        fitted: word_at(s, 56) as usize,
        room: word_at(s, 64) as usize,
        space: word_at(s, 72) as usize,
        refusal: word_at(s, 80),
        count: word_at(s, 88),
        written: word_at(s, 96) as usize,
        stored: word_at(s, 104) as usize,
    }
}

// Whether the counts fit the program's arrays, and no more is written than there is room for.
pub fn is_whole(h: Head) -> bool
    ensures whole { result ≡ true → Whole h }
    ensures damaged { result ≡ false → Whole h → ⊥ }
{
    NUMBERS >= h.numbers
        && BYTES >= h.kinds
        && BYTES >= h.recorded
        && BYTES >= h.fitted
        && ROOM >= h.room
        && BYTES >= h.space
        && h.room >= h.written
        && h.space >= h.stored
}

// A head whose counts fit the program's arrays, and that has no more to write than there is room for.
#[derive(Clone, Copy)]
pub struct WholeHead {
    pub head: Head,
    ghost fits: { Whole head },
}

impl WholeHead {
    // How many bytes are lent, and how many stand behind the head.
    pub fn lent_size(self) -> usize
        ensures { result ≡ lent_size self.head }
    {
        let h = self.head;
        8 * h.numbers + h.kinds + h.recorded + h.fitted
    }

    pub fn body_size(self) -> usize
        ensures { (result ≡ body_bytes self.head) × (result ≤ 618400) }
    {
        self.lent_size() + 8 * self.head.written + self.head.stored
    }
}

// Whether the answer is the expected refusal, or the expected count where that is 0. A refusal is any number: a record may expect one that
// no call gives.
#[tactic(auto, unfolding(crate::specs::Record::is_answered))]
pub fn is_answered(h: Head, a: Result<usize, u32>) -> bool
    ensures { result ≡ is_answered h a }
{
    match a {
        Ok(n) => h.refusal == 0 && n as u64 == h.count,
        Err(number) => u64::from(number) == h.refusal,
    }
}

// Whether outputs are as before the call behind what is written.
// The outputs are two parameters, here and below: who calls has each as an exclusive borrow, and a struct of both would be made for one call.
fn is_rest_left(h: Head, out: &[f64], bytes: &[u8]) -> bool
    ensures { result ≡ (numbers_left out.now h.written (length out.now) untouched && bytes_left bytes.now h.stored (length bytes.now) 200) }
{
    are_left(out, h.written, out.len(), BEFORE)
        && are_left(bytes, h.stored, bytes.len(), BEFORE_BYTE)
}

// A recorded call: its head, and what stands behind it.
#[derive(Clone, Copy)]
pub struct Record<'a> {
    pub whole: WholeHead,
    pub body: &'a [u8],
    ghost inside: { body_bytes whole.head ≤ length body.now },
}

impl<'a> Record<'a> {
    // Whether the fronts of the outputs are what the body has behind what is lent.
    fn is_written(self, out: &[f64], bytes: &[u8]) -> bool
        requires { (self.whole.head.room ≤ length out.now) × (self.whole.head.space ≤ length bytes.now) }
        ensures { result ≡ (numbers_written self.entry.body.now (lent_size self.entry.whole.head) self.entry.whole.head.written out.now && bytes_written self.entry.body.now (lent_size self.entry.whole.head + 8 * self.entry.whole.head.written) self.entry.whole.head.stored bytes.now) }
    {
        let h = self.whole.head;
        let numbers = self.whole.lent_size();
        let stored = numbers + 8 * h.written;
        let end = stored + h.stored;
        are_numbers_written(&self.body[numbers..stored], out)
            && are_bytes_written(&self.body[stored..end], bytes)
    }

    // Whether the outputs are those that the body has behind what is lent.
    #[tactic(auto, unfolding(crate::specs::Record::is_output))]
    pub fn is_output(self, out: &[f64], bytes: &[u8]) -> bool
        requires room_in_bounds { (self.whole.head.room ≤ length out.now) × (self.whole.head.space ≤ length bytes.now) }
        ensures { result ≡ is_output self.entry.whole.head self.entry.body.now out.now bytes.now }
    {
        self.is_written(out, bytes) && is_rest_left(self.whole.head, out, bytes)
    }
}
