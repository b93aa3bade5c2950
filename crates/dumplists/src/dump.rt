// dump: the records as text. Each made one is a line, by rising name; reference/README.md gives the format.
// Into a lent buffer and not by `Display`: that took memory, and twice the time.
use job_policy::{JobPolicy, PolicyCondition};
use record_exception::{Exception, Level};
use record_job::Job;
use record_process::{Critical, Process, Status};
use record_thread::{Signals, Thread, ThreadState};
use record_token::SuspendToken;
use records::tables::Tables;

// A text that ends at `at`. What has no room is left out: the buffer holds any records.
#[derive(Drop)]
struct Text<'a> {
    out: &'a mut [u8],
    at: usize,
}

// -- Fields --------------------------------------------------------------------------------

impl Text<'_> {
    fn byte(&mut self, byte: u8) {
        if let Some(place) = self.out.get_mut(self.at) {
            *place = byte;
            self.at += 1;
        }
    }

    fn word(&mut self, word: &[u8]) {
        let Some(room) = self.out.get_mut(self.at..) else {
            return;
        };
        if let Some(place) = room.get_mut(..word.len()) {
            place.copy_from_slice(word);
            self.at += word.len();
        }
    }

    fn digits(&mut self, n: u64) {
        if n < 10 {
            return self.byte(b'0' + n as u8);
        }
        let mut digits = [0u8; 20];
        let count = io::decimal(n, &mut digits);
        self.word(&digits[..count]);
    }

    fn number(&mut self, word: &[u8], n: u64) {
        self.word(word);
        self.digits(n);
    }

    fn signed(&mut self, word: &[u8], n: i64) {
        self.word(word);
        if n < 0 {
            self.byte(b'-');
        }
        self.digits(n.unsigned_abs());
    }

    fn flag(&mut self, word: &[u8], flag: bool) {
        self.word(word);
        self.byte(b'0' + u8::from(flag));
    }

    fn level(&mut self, word: &[u8], level: Level) {
        self.word(word);
        self.word(match level {
            Level::Unbound => b"unbound",
            Level::Bound => b"bound",
            Level::HungUp => b"hungup",
            Level::Shut => b"shut",
        });
    }

    // The action of each condition, or `-` where there is none.
    fn policy(&mut self, word: &[u8], policy: JobPolicy) {
        self.word(word);
        // Counted: a condition is a number, and `get_action` says what its entry means.
        for condition in 0..PolicyCondition::COUNT {
            self.byte(match policy.get_action(condition) {
                None => b'-',
                Some(action) => b'0' + action % 10,
            });
        }
    }

    fn status(&mut self, status: Status) {
        match status {
            Status::Init => self.word(b" status init"),
            Status::Running => self.word(b" status running"),
            Status::Exited(code) => self.signed(b" status exited ", code),
        }
    }

    // The job that a process is critical to, and whether only a nonzero code counts.
    fn critical(&mut self, critical: Option<Critical>) {
        let Some(binding) = critical else {
            return self.word(b" critical -");
        };
        self.number(b" critical ", u64::from(binding.job));
        self.flag(b" ", binding.nonzero);
    }

    // An exception that a handler has.
    fn exception(&mut self, held: Option<Exception>) {
        let Some(e) = held else {
            return self.word(b" exception -");
        };
        self.number(b" exception ", u64::from(e.kind));
        self.number(b" ", u64::from(e.place.current()));
        self.flag(b" ", e.handled);
        self.flag(b" ", e.second);
    }

    // The record has no state of a plain wait beside the stored one, which a kill makes Dying.
    fn wait(&mut self, v: Thread) {
        if v.is_in_wait() {
            self.number(b" wait ", u64::from(v.state))
        } else {
            self.word(b" wait -")
        }
    }
}

// 1 running, 2 suspended, 4 terminated.
fn signal_bits(signals: Signals) -> u64 {
    match signals {
        Signals::NoSignal => 0,
        Signals::RunningSignal => 1,
        Signals::SuspendedSignal => 2,
        Signals::TerminatedSignal => 4,
    }
}

// -- Records -------------------------------------------------------------------------------

fn write_job(text: &mut Text<'_>, name: usize, v: Job, own: JobPolicy, inherited: JobPolicy) {
    text.number(b"job ", name as u64);
    match v.parent {
        None => text.word(b" parent -"),
        Some(parent) => text.number(b" parent ", u64::from(parent)),
    }
    text.flag(b" listed ", v.listed);
    text.flag(b" killed ", v.killed);
    text.flag(b" terminated ", v.terminated);
    text.level(b" level4 ", v.level4);
    text.level(b" level5 ", v.level5);
    text.signed(b" slack ", v.slack.amount);
    text.number(b" ", u64::from(v.slack.mode));
    text.policy(b" own ", own);
    text.policy(b" inherited ", inherited);
    text.byte(b'\n');
}

fn write_process(text: &mut Text<'_>, name: usize, v: Process, fixed: JobPolicy) {
    text.number(b"process ", name as u64);
    text.number(b" job ", u64::from(v.job));
    text.flag(b" listed ", v.listed);
    text.status(v.status);
    text.flag(b" terminated ", v.terminated);
    text.level(b" level1 ", v.level1);
    text.level(b" level3 ", v.level3);
    text.critical(v.critical);
    text.policy(b" fixed ", fixed);
    text.byte(b'\n');
}

fn write_thread(text: &mut Text<'_>, name: usize, v: Thread) {
    text.number(b"thread ", name as u64);
    text.number(b" process ", u64::from(v.process));
    text.flag(b" listed ", v.listed);
    text.number(b" stored ", u64::from(v.state));
    text.number(b" shown ", u64::from(v.state()));
    text.number(b" signals ", signal_bits(v.signals()));
    text.number(b" suspends ", u64::from(v.suspends));
    text.flag(b" killed ", v.killed);
    text.flag(b" started ", v.started);
    text.flag(b" finished ", v.state == ThreadState::DEAD);
    text.level(b" level2 ", v.level2);
    text.exception(v.exception());
    text.wait(v);
    text.byte(b'\n');
}

fn write_token(text: &mut Text<'_>, name: usize, v: SuspendToken) {
    text.number(b"token ", name as u64);
    let Some(held) = v.found() else {
        return text.word(b" dropped\n");
    };
    text.number(b" held ", u64::from(held.kind.number()));
    text.number(b" ", u64::from(held.name));
    text.byte(b'\n');
}

// -- All -----------------------------------------------------------------------------------

// Writes the records and `end`, and answers where they end.
pub fn write_tables(out: &mut [u8], t: &Tables) -> usize {
    let mut text = Text { out, at: 0 };
    let policies = t.own.iter().zip(t.inherited.iter());
    for (name, (v, (own, inherited))) in t.jobs.iter().zip(policies).enumerate() {
        if v.made {
            write_job(&mut text, name, *v, *own, *inherited);
        }
    }
    for (name, (v, fixed)) in t.processes.iter().zip(t.fixed.iter()).enumerate() {
        if v.made {
            write_process(&mut text, name, *v, *fixed);
        }
    }
    for (name, v) in t.threads.iter().enumerate() {
        if v.made {
            write_thread(&mut text, name, *v);
        }
    }
    for (name, v) in t.tokens.iter().enumerate() {
        if v.made {
            write_token(&mut text, name, *v);
        }
    }
    text.word(b"end\n");
    text.at
}
