// What is left of a reader behind a full buffer.
use buffers::read_full;
use std::io;
use std::io::Read;

// How many bytes are forgotten at a time.
const PART: usize = 65536;

// Reads what is left of the input behind its first n bytes, and forgets it. An input that did not fill its buffer, of `size`
// bytes, has ended.
pub fn drain<R: Read>(reader: &mut R, n: usize, size: usize) -> io::Result<()> {
    if n < size {
        return Ok(());
    }
    let mut rest = [0; PART];
    // a loop has to end, so the reads are counted
    for _ in 0..u64::MAX {
        if read_full(reader, &mut rest)? < PART {
            return Ok(());
        }
    }
    Ok(())
}
