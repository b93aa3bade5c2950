// recorder: a stream of commands, taken in parts of any size, and the lines that are written for it.
// stream_state/specs/Recorder.antt says what is written for a part; that no cut into parts changes the whole is in
// `stream`.
#![tactic(auto)]

ghost use Rattle.std.specs.Prelude.{◌≡◌, ◌≤◌, length};
ghost use Rattle.io.specs.Counts.{IsPrefixLen};
ghost use Rattle.stream_state.specs.Recorder.{fed, Feeds};

use commands::Next;
use lines::LINE;
use stream_state::State;
use stream_state::fed::{Fed, fed_at};

// Performs whole commands from the front of `input` while `out` has room for a line, and says how far it came.
pub fn feed(state: State, input: &[u8], out: &mut [u8]) -> Fed
    ensures feeds { Feeds (fed (length out.old) state input.now) result out.new }
    ensures prefix_len { IsPrefixLen result.written out.new }
    ensures consumed_in_bounds { result.consumed ≤ length input.now }
{
    let mut t = state.tables;
    let mut number = state.number;
    let mut at: usize = 0;
    let mut written: usize = 0;
    loop {
        if out.len() - written < LINE {
            return fed_at(t, number, at, written, false);
        }
        let rest = &input[at..];
        match commands::next_of(rest) {
            Next::Wait => {
                return fed_at(t, number, at, written, false);
            }
            Next::Stop => {
                written = lines::put_stop(out, written, stream_state::next_number(number));
                return fed_at(t, number, at, written, true);
            }
            Next::Whole(n) => {
                number = stream_state::next_number(number);
                at += n;
                let shown = calls::perform(&mut t, &rest[..n]);
                written = lines::put_line(out, written, number, shown);
            }
        }
    }
}
