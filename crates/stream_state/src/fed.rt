// fed.rt: how far a part of a stream came. specs/Recorder.antt says what is written for a part, and
// proofs/Feeding.antt what a loop over its commands does.
ghost use Rattle.std.specs.Prelude.{◌≡◌};
ghost use Rattle.stream_state.specs.Recorder.{fed_at};

use crate::State;
use records::tables::Tables;

// How far a call of `feed` came.
#[derive(Drop)]
pub struct Fed {
    pub state: State,
    pub consumed: usize,
    pub written: usize,
    // Whether the stream has ended at what is no command.
    pub finished: bool,
}

pub fn fed_at(tables: Tables, number: u64, consumed: usize, written: usize, finished: bool) -> Fed
    ensures { result ≡ fed_at tables number consumed written finished }
{
    Fed {
        state: State { tables, number },
        consumed,
        written,
        finished,
    }
}
