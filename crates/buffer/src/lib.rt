// buffer: the recorder called on the bytes at the front of a buffer. Its lines are at the front of another buffer,
// and the bytes that it did not use are kept, none lost and none changed.
#![tactic(auto)]

ghost use Rattle.std.specs.Prelude.{◌-◌, ◌≤◌, min, ◌≡◌, length, take, drop};
ghost use Rattle.io.specs.Counts.{IsPrefixLen};
ghost use Rattle.stream_state.specs.Recorder.{fed};
ghost use Rattle.buffer.specs.Buffer.{Advances};

use stream_state::State;

// Where a stream stands: `have` bytes are at the front of the buffer and not yet used, and the last call of the
// recorder left `written` bytes of lines.
#[derive(Drop)]
pub struct Progress {
    pub state: State,
    pub have: usize,
    pub written: usize,
    pub going: bool,
}

// Calls the recorder on what is there: its lines are at the front of `out`, what it did not use at that of `buf`.
pub fn advance(progress: Progress, buf: &mut [u8], out: &mut [u8]) -> Progress
    ensures advances { Advances
        (fed (length out.old) progress.state (take progress.have buf.old))
        (min progress.have (length buf.old)) buf.old result buf.new out.new }
    ensures prefix_len { IsPrefixLen result.written out.new }
    ensures have_in_bounds { result.have ≤ length buf.new }
{
    let have = progress.have.min(buf.len());
    let part = recorder::feed(progress.state, &buf[..have], out);
    buf.copy_within(part.consumed..have, 0);
    Progress {
        state: part.state,
        have: have - part.consumed,
        written: part.written,
        going: !part.finished,
    }
}
