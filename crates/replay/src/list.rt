// list: one list from its calls to its last line. The calls are read in parts; what the library writes for a part is
// compared before the next is read.
ghost use Rattle.std.specs.Prelude.{◌≤◌, length, IfOk};
ghost use Rattle.replay.specs.Agree.{Follows, Finishes, Replays, lines_of};

use crate::pack;
use crate::pack::{Input, Pack};
use crate::recorded::{Fault, Lines};
use stream_state::State;

// So many bytes of calls are read at once. Long lists are so cut at every place of a call, and the lines of a part can
// be more than `out` has room for.
const PART: usize = 2999;

// What a list takes beside its inputs: calls that are read, lines that are written for them, and those recorded.
#[derive(Drop)]
pub struct Buffers {
    pub calls: [u8; 4096],
    pub out: [u8; 4096],
    pub want: [u8; 4096],
}

// Where a list stands: `have` bytes of calls are at the front of the buffer and not yet used.
#[derive(Clone, Copy)]
struct Progress {
    state: State,
    lines: Lines,
    have: usize,
    finished: bool,
}

// Calls the recorder on what is there until no whole call is left, and compares the lines.
fn drain(
    lines: &mut Input,
    begun: Progress,
    buf: &[u8],
    out: &mut [u8],
    want: &mut [u8],
) -> Result<Progress, Fault>
    ensures have_in_bounds { IfOk result (λ p. p.have ≤ length buf.now) }
    ensures follows { Follows begun.lines (lines_of result) }
{
    let mut state = begun.state;
    let mut recorded = begun.lines;
    let mut at: usize = 0;
    // The recorder says how far it came, so no iterator gives the places.
    loop {
        let r = recorder::feed(state, &buf[at..], out);
        let written = r.written;
        recorded = recorded.compare(lines, &out[..written], want)?;
        at += r.consumed;
        state = r.state;
        if r.finished || r.consumed == 0 {
            return Ok(Progress {
                state,
                lines: recorded,
                have: buf.len() - at,
                finished: r.finished,
            });
        }
    }
}

// Reads a part of the calls behind what is there, and does what came. The buffer has room for a part and a cut call.
fn turn(
    pack: &mut Pack,
    part: usize,
    begun: Progress,
    buffers: &mut Buffers,
) -> Result<Progress, Fault>
    ensures { Follows begun.lines (lines_of result) }
{
    let have = begun.have.min(buffers.calls.len());
    let end = have.saturating_add(part).min(buffers.calls.len());
    let got = pack.calls.read_full(&mut buffers.calls[have..end]);
    if got < part {
        return Err(Fault::Cut(begun.lines.at));
    }
    let p = drain(
        &mut pack.lines,
        begun,
        &buffers.calls[..end],
        &mut buffers.out,
        &mut buffers.want,
    )?;
    buffers.calls.copy_within(end - p.have..end, 0);
    Ok(p)
}

// The end of the calls. The last line is a stop if the recorder finished there or a cut call is left, and only then.
fn finish(lines: &mut Input, p: Progress, buffers: &mut Buffers) -> Result<usize, Fault>
    ensures { Finishes p.lines result }
{
    if p.finished {
        return p.lines.ended(p.lines.stop);
    }
    let left = &buffers.calls[..p.have.min(buffers.calls.len())];
    let n = stream_state::close(p.state, left, &mut buffers.out);
    let last = p
        .lines
        .compare(lines, &buffers.out[..n], &mut buffers.want)?;
    last.ended(last.stop == !left.is_empty())
}

// Replays the list whose calls, of the given length, come next, and passes over what stands behind them. Says how many
// bytes of its lines agreed, which are then all of them.
pub fn replay(
    pack: &mut Pack,
    length: usize,
    recorded: Lines,
    buffers: &mut Buffers,
) -> Result<usize, Fault>
    ensures { Replays recorded result }
{
    let mut p = Progress {
        state: stream_state::fresh(),
        lines: recorded,
        have: 0,
        finished: false,
    };
    let mut unread = length;
    while unread > 0 && !p.finished {
        let part = unread.min(PART);
        p = turn(pack, part, p, buffers)?;
        unread -= part;
    }
    let agreed = finish(&mut pack.lines, p, buffers)?;
    let behind = unread.saturating_add(4).saturating_add(agreed);
    pack::pass(&mut pack.calls, behind, agreed)
}
