// Replays recorded calls of every geometric function, of those of lap files and of sessions, of the live thinner, of an Arc's drawing, of
// path data and of the fewest straights, and compares each with what the given Rust, or a plain model, answered. Standard input has the records, up to
// 1,000,000 of them, made by `oracle/run geometry list 5690 1`. The program prints how many were compared, and how many differ; a damaged
// one differs and ends the run.
#![tactic(auto)]

mod calls;
mod circles;
mod curves;
mod drawings;
mod fits;
mod sessions;
mod straights;
mod thinner;

ghost use Rattle.std.specs.Prelude.{◌≡◌, ◌≤◌, length};

use crate::calls::{Answer, DAMAGED};
use buffers::read_full;
use records::layout::{
    BEFORE, BEFORE_BYTE, BODY_SIZE, BYTES, HEAD_SIZE, NUMBERS, ROOM, Record, WholeHead, head_of,
    is_answered, is_whole,
};
use records::read_numbers;
use std::io;
use std::io::Read;

// The size of small outputs.
const SMALL: usize = 1000;

// Makes the call of a record, where it fits the call. Kinds and files are lent as they stand in the record.
// The outputs are parameters here and below, and no struct: two exclusive borrows would be taken apart and put together at each call.
fn answer_of(record: Record, out: &mut [f64], bytes: &mut [u8]) -> Answer
    requires room_in_bounds { (record.whole.head.room ≤ length out.old) × (record.whole.head.space ≤ length bytes.old) }
{
    let h = record.whole.head;
    let body = record.body;
    let n = h.numbers;
    let kinds = 8 * n;
    let recorded = kinds + h.kinds;
    let fitted = recorded + h.recorded;
    let end = fitted + h.fitted;
    let room = h.room;
    let space = h.space;
    let mut numbers = [0.0; NUMBERS];
    read_numbers(&body[..kinds], &mut numbers);
    calls::call(
        h,
        &numbers[0..n],
        &body[kinds..recorded],
        &body[recorded..fitted],
        &body[fitted..end],
        &mut out[0..room],
        &mut bytes[0..space],
    )
}

// Whether the call of a record, with these outputs, answers and leaves what the record says.
fn agrees_in(record: Record, out: &mut [f64], bytes: &mut [u8]) -> bool
    requires room_in_bounds { (record.whole.head.room ≤ length out.old) × (record.whole.head.space ≤ length bytes.old) }
{
    let answer = match answer_of(record, out, bytes) {
        Some(Ok(n)) => Ok(n),
        Some(Err(cause)) => Err(u32::from(cause)),
        None => Err(DAMAGED),
    };
    is_answered(record.whole.head, answer) && record.is_output(out, bytes)
}

fn agrees_in_large(record: Record) -> bool {
    let mut out = [BEFORE; ROOM];
    let mut bytes = [BEFORE_BYTE; BYTES];
    agrees_in(record, &mut out, &mut bytes)
}

// Whether the call of a record agrees, with outputs of one of two sizes: nine in ten records need little room, and filling and
// comparing large outputs takes longer than the calls.
fn agrees(record: Record) -> bool {
    let h = record.whole.head;
    if SMALL < h.room || SMALL < h.space {
        return agrees_in_large(record);
    }
    let mut out = [BEFORE; SMALL];
    let mut bytes = [BEFORE_BYTE; SMALL];
    agrees_in(record, &mut out, &mut bytes)
}

#[derive(Clone, Copy)]
enum Found {
    Agrees,
    Differs,
    Damaged,
    End,
}

// Reads what stands behind a head, and replays the record.
fn replay_body<R: Read>(reader: &mut R, whole: WholeHead, body: &mut [u8]) -> io::Result<Found>
    requires { 618400 ≤ length body.old }
{
    let size = whole.body_size();
    if read_full(reader, &mut body[0..size])? < size {
        return Ok(Found::Damaged);
    }
    let record = Record {
        whole,
        body: &body[0..size],
    };
    if agrees(record) {
        return Ok(Found::Agrees);
    }
    Ok(Found::Differs)
}

// Reads the next record and replays it.
fn replay_one<R: Read>(reader: &mut R, body: &mut [u8]) -> io::Result<Found>
    requires { 618400 ≤ length body.old }
{
    let mut head = [0; HEAD_SIZE];
    let n = read_full(reader, &mut head)?;
    if n == 0 {
        return Ok(Found::End);
    }
    if n < HEAD_SIZE {
        return Ok(Found::Damaged);
    }
    let h = head_of(&head);
    if is_whole(h) {
        let whole = WholeHead { head: h };
        return replay_body(reader, whole, body);
    }
    Ok(Found::Damaged)
}

// Room for what stands behind a head. The promise gives only the length, which lending the array asks.
fn body_buffer() -> [u8; 618400]
    ensures { 618400 ≡ length result }
{
    [0; BODY_SIZE]
}

#[derive(Clone, Copy)]
struct Tally {
    compared: u64,
    differ: u64,
}

// Replays the records, one behind the other.
fn replay_all<R: Read>(reader: &mut R) -> io::Result<Tally> {
    let mut body = body_buffer();
    let mut differ: u64 = 0;
    for i in 0..1000000 {
        match replay_one(reader, &mut body)? {
            Found::Agrees => {}
            Found::Differs => {
                differ += 1;
            }
            Found::Damaged => {
                return Ok(Tally {
                    compared: i,
                    differ: differ + 1,
                });
            }
            Found::End => {
                return Ok(Tally {
                    compared: i,
                    differ,
                });
            }
        }
    }
    Ok(Tally {
        compared: 1000000,
        differ,
    })
}

fn main(rt: HostRuntime) -> io::Result<()> {
    let mut reader = rt.reader();
    let t = replay_all(&mut reader)?;
    let compared = t.compared;
    let differ = t.differ;
    println!(rt; "{compared} compared, {differ} differ")
}
