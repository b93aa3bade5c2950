// callrun: reads commands from standard input to its end and writes a line for each. What is written for which bytes
// is `recorder`'s; here the bytes are moved, none lost and none changed. A read or a write that fails ends the
// program with a message.
#![tactic(auto)]

ghost use Rattle.std.specs.Prelude.{◌-◌, ◌≤◌, ◌≡◌, length, take, IfOk};

use buffer::Progress;
use std::fmt::Display;
use std::io::Read;
use std::{fmt, io};

// What failed, and why.
#[derive(Debug, Drop)]
enum Failure {
    Input(io::Error),
    Output(io::Error),
}

impl Display for Failure {
    fn fmt<W: fmt::Write>(&self, f: &mut fmt::Formatter<W>) -> fmt::Result {
        match self {
            Failure::Input(error) => write!(f, "standard input: {error}"),
            Failure::Output(error) => write!(f, "standard output: {error}"),
        }
    }
}

// Hands lines to standard output.
fn write_out(rt: &impl Print, lines: &[u8]) -> Result<(), Failure> {
    rt.write_all(lines).map_err(Failure::Output)
}

// Reads once, behind the first `have` bytes.
fn more(input: &mut impl Read, buf: &mut [u8], have: usize) -> Result<usize, Failure>
    requires { have ≤ length buf.old }
    ensures kept { take have buf.new ≡ take have buf.old }
    ensures in_bounds { IfOk result (λ n. n ≤ length buf.new - have) }
{
    input.read(&mut buf[have..]).map_err(Failure::Input)
}

// Performs what is there, and once nothing comes of it, reads more. A proved loop has to end, and nothing says that the
// input does: no run takes so many turns.
fn run(
    rt: &impl Print,
    input: &mut impl Read,
    buf: &mut [u8],
    out: &mut [u8],
) -> Result<(), Failure> {
    let mut progress = Progress {
        state: stream_state::fresh(),
        have: 0,
        written: 0,
        going: true,
    };
    for _ in 0..u64::MAX {
        if progress.written == 0 {
            let n = more(input, buf, progress.have)?;
            if n == 0 {
                let last = stream_state::close(progress.state, &buf[..progress.have], out);
                return write_out(rt, &out[..last]);
            }
            progress.have += n;
        }
        progress = buffer::advance(progress, buf, out);
        write_out(rt, &out[..progress.written])?;
        if !progress.going {
            return Ok(());
        }
    }
    Ok(())
}

fn main(rt: HostRuntime) {
    let mut input = rt.stdin();
    let mut buf = [0u8; 65536];
    let mut out = [0u8; 65536];
    if let Err(failure) = run(&rt, &mut input, &mut buf, &mut out) {
        // Where that cannot be written either, nothing else is left to do.
        let _ = eprintln!(rt; "{failure}");
    }
}
