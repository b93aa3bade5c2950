// stream_state: where a stream of commands stands, the number of its next line, and its end.
// specs/Recorder.antt says what is written for a part of a stream, specs/State.antt what at the end of the input.
#![tactic(auto)]

ghost use Rattle.std.specs.Prelude.{◌≡◌, length};
ghost use Rattle.io.specs.Counts.{IsPrefixLen};
ghost use Rattle.lines.specs.Line.{Put};
ghost use Rattle.stream_state.specs.State.{next_number, fresh_state, closed_within};

use records::tables::{Tables, fresh_tables};

pub mod fed;

// The tables, and the number of the last line.
#[derive(Clone, Copy)]
pub struct State {
    pub tables: Tables,
    pub number: u64,
}

// A fresh root, and no line yet.
pub fn fresh() -> State
    ensures { result ≡ fresh_state }
{
    State {
        tables: fresh_tables(),
        number: 0,
    }
}

// Lines are numbered from 1. No run reaches 2^64 - 1, the last number.
#[tactic(auto, using(laws::proofs::Flow::branches), unfolding(crate::specs::State::next_number))]
pub fn next_number(n: u64) -> u64
    ensures { result ≡ next_number n }
{
    n.saturating_add(1)
}

// At the end of the input: a command that was cut stops. A buffer with no room for a line gets nothing.
pub fn close(state: State, left: &[u8], out: &mut [u8]) -> usize
    ensures put { Put out.old out.new 0 result
        (closed_within (length out.old) state left.now) }
    ensures prefix_len { IsPrefixLen result out.new }
{
    if left.is_empty() {
        return 0;
    }
    lines::put_stop(out, 0, next_number(state.number))
}
