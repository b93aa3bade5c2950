// dumplists: runs many command lists, each from a fresh root, and writes its lines, each record at its end and `end`,
// as `reference --dump --lists` does. A list stands behind its length in 4 little-endian bytes, of at most 65,536.
#![tactic(auto)]

mod dump;

ghost use Rattle.std.specs.Prelude.{◌≤◌, length, IfOk};
ghost use Rattle.io.specs.Counts.{IsPrefixLen};

use std::fmt::Display;
use std::io::Read;
use std::{fmt, io};
use stream_state::State;

// Why the program ends before its input does.
#[derive(Debug, Drop)]
enum Failure {
    Output(io::Error),
    Cut,
    TooLong,
}

impl Display for Failure {
    fn fmt<W: fmt::Write>(&self, f: &mut fmt::Formatter<W>) -> fmt::Result {
        match self {
            Failure::Output(error) => write!(f, "standard output: {error}"),
            Failure::Cut => write!(f, "dumplists: the last list is cut short"),
            Failure::TooLong => write!(f, "dumplists: a list of more than 65536 bytes"),
        }
    }
}

// -- A list --------------------------------------------------------------------------------

fn write_out(rt: &impl Print, text: &[u8]) -> Result<(), Failure> {
    rt.write_all(text).map_err(Failure::Output)
}

// Writes the lines of a list, and answers what is left of it: a command that was cut.
fn feed_list<'a>(
    rt: &impl Print,
    list: &'a [u8],
    out: &mut [u8],
) -> Result<(State, &'a [u8]), Failure>
    ensures { IfOk result (λ p. length p.1.now ≤ length list.now) }
{
    let mut state = stream_state::fresh();
    let mut rest = list;
    while !rest.is_empty() {
        let r = recorder::feed(state, rest, out);
        let written = r.written;
        let consumed = r.consumed;
        state = r.state;
        write_out(rt, &out[..written])?;
        rest = &rest[consumed..];
        if r.finished {
            return Ok((state, &rest[..0]));
        }
        if consumed == 0 {
            return Ok((state, rest));
        }
    }
    Ok((state, rest))
}

// Runs a list from a fresh root. `out` has room for any records, so that no memory is asked for.
fn run_list(rt: &impl Print, list: &[u8], out: &mut [u8]) -> Result<(), Failure> {
    let (state, left) = feed_list(rt, list, out)?;
    let n = stream_state::close(state, left, out);
    write_out(rt, &out[..n])?;
    let end = dump::write_tables(out, &state.tables);
    write_out(rt, &out[..end.min(out.len())])
}

// -- Input ---------------------------------------------------------------------------------

// Reads until the buffer is full, the input ends or a read fails, and says how many bytes came, which `read_exact`
// does not.
fn read_full(input: &mut impl Read, buf: &mut [u8]) -> usize
    ensures { IsPrefixLen result buf.new }
{
    let mut done: usize = 0;
    while done < buf.len() {
        match input.read(&mut buf[done..]) {
            Ok(0) => return done,
            Ok(n) => done += n,
            Err(_) => return done,
        }
    }
    done
}

// The length of the list that comes next, if one does.
fn next_length(input: &mut impl Read) -> Result<Option<usize>, Failure> {
    let mut head = [0u8; 4];
    match read_full(input, &mut head) {
        0 => Ok(None),
        4 => Ok(Some(u32::from_le_bytes(head) as usize)),
        _ => Err(Failure::Cut),
    }
}

// Runs all lists. A proved loop has to end, and nothing says that the input does: no run takes so many turns.
fn run(rt: &impl Print, input: &mut impl Read) -> Result<(), Failure> {
    let mut buf = [0u8; 65536];
    let mut out = [0u8; 65536];
    for _ in 0..u64::MAX {
        let Some(n) = next_length(input)? else {
            return Ok(());
        };
        let list = buf.get_mut(..n).ok_or(Failure::TooLong)?;
        if read_full(input, list) < n {
            return Err(Failure::Cut);
        }
        run_list(rt, list, &mut out)?;
    }
    Ok(())
}

fn main(rt: HostRuntime) {
    let mut input = rt.stdin();
    if let Err(failure) = run(&rt, &mut input) {
        let _ = eprintln!(rt; "{failure}");
    }
}
