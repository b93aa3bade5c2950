// pack: a file of lists. An entry is the length of the calls in 4 little-endian bytes, the calls, the length of the
// lines in 4 bytes, the lines.
ghost use Rattle.std.specs.Prelude.{ℕ, ◌≡◌, ◌≤◌, ◌-◌, Bool, Option, length, take, drop};
ghost use Rattle.io.specs.Counts.{IsPrefixLen};
ghost use Rattle.replay.specs.Agree.{length_of, lines_behind, passed};

use crate::recorded::{Fault, Lines};
use std::fs::File;
use std::io::Read;

// A file, read through a buffer, so that no small part of it is a call of the system: what was read and not yet taken
// stands from `from` to `to`.
#[derive(Drop)]
pub struct Input {
    file: File,
    room: [u8; 32768],
    from: usize,
    to: usize,
}

impl Input {
    // Nothing is read yet.
    pub fn new(file: File) -> Input
        ensures { result.to ≤ result.from }
    {
        Input {
            file,
            room: [0; 32768],
            from: 0,
            to: 0,
        }
    }

    // Reads once nothing is left to take. At the end of the file, or where a read fails, nothing is left then either.
    fn fill(&mut self) {
        if self.from < self.to {
            return;
        }
        self.from = 0;
        self.to = self.file.read(&mut self.room).unwrap_or(0);
    }

    // Takes as many bytes as are there and fit, and says how many; none at the end of the file. They are those that
    // stand before the place from which is taken next.
    fn take(&mut self, buf: &mut [u8]) -> usize
        ensures in_bounds { result ≤ length buf.new }
        ensures bytes { take result buf.new ≡ take result (drop (self.new.from - result) self.new.room) }
    {
        self.fill();
        let from = self.from;
        let to = self.to;
        let Some(ready) = self.room.get(from..to) else {
            return 0;
        };
        let n = ready.len().min(buf.len());
        buf[..n].copy_from_slice(&ready[..n]);
        self.from = from + n;
        n
    }

    // Takes bytes until the buffer is full or the file ends, and says how many came.
    pub fn read_full(&mut self, buf: &mut [u8]) -> usize
        ensures { IsPrefixLen result buf.new }
    {
        let mut done: usize = 0;
        while done < buf.len() {
            let n = self.take(&mut buf[done..]);
            if n == 0 {
                return done;
            }
            done += n;
        }
        done
    }

    // Passes over n bytes, and says whether they were there.
    fn skip(&mut self, n: usize) -> bool {
        let mut left = n;
        while left > 0 {
            self.fill();
            let passed = self.to.saturating_sub(self.from).min(left);
            if passed == 0 {
                return false;
            }
            self.from += passed;
            left -= passed;
        }
        true
    }
}

// A pack is read twice, side by side: its calls, and the lines that stand behind them.
#[derive(Drop)]
pub struct Pack {
    pub calls: Input,
    pub lines: Input,
}

// The length that comes next; none at the end of the file.
pub fn next_length(input: &mut Input, bytes: &mut [u8; 4]) -> Result<Option<usize>, Fault>
    ensures { (got : ℕ) × (result ≡ length_of got bytes.new) }
{
    let got = input.read_full(bytes);
    if got == 0 {
        return Ok(None);
    }
    if got < 4 {
        return Err(Fault::Cut(0));
    }
    Ok(Some(u32::from_le_bytes(*bytes) as usize))
}

// The lines of the entry at whose start the input stands, and whose calls have the given length.
pub fn lines_behind(input: &mut Input, calls: usize) -> Result<Lines, Fault>
    ensures { (found : Option ℕ) × (result ≡ lines_behind found) }
{
    if !input.skip(calls.saturating_add(4)) {
        return Err(Fault::Cut(0));
    }
    let mut bytes = [0u8; 4];
    let Some(end) = next_length(input, &mut bytes)? else {
        return Err(Fault::Cut(0));
    };
    Ok(Lines::new(end))
}

// Passes over what stands behind the calls that were read, where `agreed` bytes of the list's lines did.
pub fn pass(input: &mut Input, behind: usize, agreed: usize) -> Result<usize, Fault>
    ensures { (there : Bool) × (result ≡ passed agreed there) }
{
    if !input.skip(behind) {
        return Err(Fault::Cut(agreed));
    }
    Ok(agreed)
}
