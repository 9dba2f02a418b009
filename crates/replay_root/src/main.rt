// Compares the proved root with the machine's. Standard input has up to 4,096 records of 16 bytes: the pattern of a number, and
// that of its root as the machine gave it, each with the lowest byte first. The program prints how many differ.
#![tactic(auto)]

use buffers::read_full;
use file::words::{float_of, word_at};
use records::has_pattern;
use std::io;

// Whether the root of the number has the expected pattern.
fn is_same(number: u64, expected: u64) -> bool {
    has_pattern(floats::root::sqrt(float_of(number)), expected)
}

// The bytes of a record.
const SIZE: usize = 16;

// How many of the records of s have another root.
fn differences(s: &[u8]) -> u64 {
    // A count by hand: in a `filter` over the indices the bounds of both words would be a closure's contract.
    let mut differ: u64 = 0;
    for i in 0..s.len() / SIZE {
        if !is_same(word_at(s, SIZE * i), word_at(s, SIZE * i + 8)) {
            differ += 1;
        }
    }
    differ
}

// How many bytes 4,096 records have.
const ALL: usize = 65536;

fn main(rt: HostRuntime) -> io::Result<()> {
    let mut records = [0; ALL];
    let mut reader = rt.reader();
    let n = read_full(&mut reader, &mut records)? / SIZE;
    let differ = differences(&records[..SIZE * n]);
    println!(rt; "{n} compared, {differ} differ")
}
