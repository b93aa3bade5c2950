// recorded: the recorded lines of a list, and how far what is written agrees with them.
ghost use Rattle.std.specs.Prelude.{◌≡◌};
ghost use Rattle.replay.specs.Agree.{common, lines_from, judged, over, Compares};

use crate::pack::Input;
use std::fmt;
use std::fmt::Display;

// Why a list does not agree, and how many bytes of its lines did.
#[derive(Clone, Copy)]
pub enum Fault {
    Differs(usize),
    Cut(usize),
}

impl Display for Fault {
    fn fmt<W: fmt::Write>(&self, f: &mut fmt::Formatter<W>) -> fmt::Result {
        match self {
            Fault::Differs(after) => write!(f, "differs after {after}"),
            Fault::Cut(after) => write!(f, "is cut after {after}"),
        }
    }
}

// How far the recorded lines of a list are compared: `at` of `end` bytes agreed.
#[derive(Clone, Copy)]
pub struct Lines {
    pub end: usize,
    pub at: usize,
    // Whether the last line was a stop.
    pub stop: bool,
}

// How many bytes at the front are the same in both.
fn common(a: &[u8], b: &[u8]) -> usize
    ensures { result ≡ common a.now b.now }
{
    a.iter().zip(b).take_while(|(x, y)| x == y).count()
}

impl Lines {
    // The lines of a list before any is compared.
    pub fn new(end: usize) -> Lines
        ensures { result ≡ lines_from end }
    {
        Lines {
            end,
            at: 0,
            stop: false,
        }
    }

    // After `written` was written, where `came` is what the file has there: all of it has to stand there.
    fn judge(self, written: &[u8], came: &[u8]) -> Result<Lines, Fault>
        ensures { result ≡ judged self written.now came.now }
    {
        if written.is_empty() {
            return Ok(self);
        }
        let agreed = common(written, came);
        let at = self.at.saturating_add(agreed);
        if agreed == written.len() {
            let stop = written.ends_with(b"stop\n");
            return Ok(Lines { at, stop, ..self });
        }
        if came.len() < written.len().min(self.end.saturating_sub(self.at)) {
            return Err(Fault::Cut(at));
        }
        Err(Fault::Differs(at))
    }

    // Reads as many bytes of the lines as were written, none from behind them, and judges. The input stands behind the
    // bytes that were compared.
    pub fn compare(self, input: &mut Input, written: &[u8], want: &mut [u8]) -> Result<Lines, Fault>
        ensures { Compares self written.now want.new result }
    {
        let there = self.end.saturating_sub(self.at).min(want.len());
        let asked = written.len().min(there);
        let got = input.read_full(&mut want[..asked]);
        self.judge(written, &want[..got])
    }

    // The end of the list: what else has to hold does, and no line is left. Answers how many bytes agreed.
    pub fn ended(self, holds: bool) -> Result<usize, Fault>
        ensures { result ≡ over self holds }
    {
        if holds && self.at == self.end {
            return Ok(self.at);
        }
        Err(Fault::Differs(self.at))
    }
}
