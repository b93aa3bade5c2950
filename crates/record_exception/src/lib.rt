// record_exception: a level of an exception channel (Exceptionate of exception.rs), and an exception that a handler
// holds, with the place in the order of handlers where it was delivered.
#![tactic(auto)]

ghost use Rattle.std.specs.Prelude.{◌≡◌};
ghost use Rattle.record_exception.specs.Channel.{is_bound, is_shut, tried};
ghost use Rattle.record_exception.specs.Exception.{level_of, current_level, exception_at};

// -- Levels --------------------------------------------------------------------------------

#[derive(Clone, Copy, PartialEq, Eq)]
pub enum Level {
    Unbound,
    Bound,
    HungUp,
    Shut,
}

impl Level {
    // Whether the handler's end is there.
    pub fn is_bound(self) -> bool
        ensures { result ≡ is_bound self }
    {
        matches!(self, Level::Bound)
    }

    pub fn is_shut(self) -> bool
        ensures { result ≡ is_shut self }
    {
        matches!(self, Level::Shut)
    }

    // The level after an exception was tried there: a hung-up one becomes unbound.
    pub fn tried(self) -> Level
        ensures { result ≡ tried self }
    {
        match self {
            Level::HungUp => Level::Unbound,
            level => level,
        }
    }
}

// -- Exceptions ----------------------------------------------------------------------------

// The numbers of ExceptionType. They stay numbers: a raise takes any, and the scope has them sorted by a match.
#[derive(Drop)]
pub struct ExceptionType;

impl ExceptionType {
    pub const GENERAL: u16 = 0x0008;

    pub const FATAL_PAGE_FAULT: u16 = 0x0108;

    pub const UNDEFINED_INSTRUCTION: u16 = 0x0208;

    pub const SOFTWARE_BREAKPOINT: u16 = 0x0308;

    pub const HARDWARE_BREAKPOINT: u16 = 0x0408;

    pub const UNALIGNED_ACCESS: u16 = 0x0508;

    pub const SYNTH: u16 = 0x8000;

    pub const THREAD_STARTING: u16 = 0x8008;

    pub const THREAD_EXITING: u16 = 0x8108;

    pub const POLICY_ERROR: u16 = 0x8208;

    pub const PROCESS_STARTING: u16 = 0x8308;
}

// Where an exception waits. The order of handlers is worked out from it.
#[derive(Clone, Copy, PartialEq, Eq)]
pub enum Place {
    // The process debugger, first.
    Debugger,
    OwnThread,
    OwnProcess,
    // The process debugger again.
    SecondChance,
    OfJob(u8),
    OfJobDebugger(u8),
    // The process debugger, for ThreadExiting: it does not become the current level.
    Exiting,
}

#[derive(Clone, Copy, PartialEq, Eq)]
pub struct Exception {
    pub kind: u16,
    pub place: Place,
    pub handled: bool,
    pub second: bool,
}

impl Place {
    // The channel level that has the exception.
    pub fn level(self) -> u8
        ensures { result ≡ level_of self }
    {
        match self {
            Place::Debugger | Place::SecondChance | Place::Exiting => 1,
            Place::OwnThread => 2,
            Place::OwnProcess => 3,
            Place::OfJob(_) => 4,
            Place::OfJobDebugger(_) => 5,
        }
    }

    // `current_channel_type`: the level, but none for ThreadExiting.
    pub fn current(self) -> u8
        ensures { result ≡ current_level self }
    {
        match self {
            Place::Exiting => 0,
            place => place.level(),
        }
    }
}

impl Exception {
    // An exception delivered at a place, not handled yet.
    pub fn at(kind: u16, place: Place, second: bool) -> Exception
        ensures { result ≡ exception_at kind place second }
    {
        Exception {
            kind,
            place,
            handled: false,
            second,
        }
    }
}
