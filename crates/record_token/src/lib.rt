// record_token: the record of a suspend token: the task that it holds, by kind and name. A dropped one holds nothing.
#![tactic(auto)]

ghost use Rattle.std.specs.Prelude.{◌≡◌};
ghost use Rattle.record_token.specs.SuspendToken.{number, Numbered};
ghost use Rattle.record_token.specs.SuspendToken.{no_token, new_token, drop};

// The kinds of a task.
#[derive(Clone, Copy, PartialEq, Eq)]
pub enum Kind {
    Job,
    Process,
    Thread,
}

impl Kind {
    // The number that a call names a kind by.
    pub fn number(self) -> u8
        ensures { result ≡ number self }
    {
        match self {
            Kind::Job => 0,
            Kind::Process => 1,
            Kind::Thread => 2,
        }
    }
}

impl TryFrom<u8> for Kind {
    type Error = ();

    ghost try_from_gives = { Numbered };

    fn try_from(number: u8) -> Result<Kind, ()> {
        match number {
            0 => Ok(Kind::Job),
            1 => Ok(Kind::Process),
            2 => Ok(Kind::Thread),
            _ => Err(()),
        }
    }
}

#[derive(Clone, Copy, PartialEq, Eq)]
pub struct Task {
    pub kind: Kind,
    pub name: u8,
}

#[derive(Clone, Copy, PartialEq, Eq)]
pub struct SuspendToken {
    // The tables are arrays of records, by the scope, so that one never made is a record too.
    pub made: bool,
    pub task: Option<Task>,
}

impl SuspendToken {
    // A token never made.
    pub fn none() -> SuspendToken
        ensures { result ≡ no_token }
    {
        SuspendToken {
            made: false,
            task: None,
        }
    }

    // A token just made over a task.
    pub fn holding(kind: Kind, name: u8) -> SuspendToken
        ensures { result ≡ new_token kind name }
    {
        SuspendToken {
            made: true,
            task: Some(Task { kind, name }),
        }
    }

    // The token dropped: its name stays used, and it keeps no task.
    pub fn drop(mut self) -> SuspendToken
        ensures { result ≡ drop self }
    {
        self.task = None;
        self
    }

    // The task that it still holds, or none: a dropped one is not found.
    pub fn found(self) -> Option<Task>
        ensures { result ≡ self.task }
    {
        self.task
    }
}
