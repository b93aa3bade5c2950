// record_thread: the record of a thread, and what a single call does to it. States are numbers, as in ThreadState.
#![tactic(auto)]

ghost use Rattle.std.specs.Prelude.{◌≡◌};
ghost use Rattle.record_thread.specs.Thread.{found_thread_in};
ghost use Rattle.record_thread.specs.Thread.{no_thread, new_thread, thread_of};
ghost use Rattle.record_thread.specs.Thread.{without_exception, dying, start, kill, exit, finish};
ghost use Rattle.record_thread.specs.Thread.{suspend, resume, waits, end_wait, with_level2};

use record_exception::{Exception, Level};

mod state;

// The numbers of ThreadState, as the records keep them: the scope asks for constants of the type.
#[derive(Drop)]
pub struct ThreadState;

impl ThreadState {
    pub const NEW: u16 = 0;

    pub const RUNNING: u16 = 1;

    pub const SUSPENDED: u16 = 2;

    pub const BLOCKED: u16 = 3;

    pub const DYING: u16 = 4;

    pub const DEAD: u16 = 5;

    pub const BLOCKED_EXCEPTION: u16 = 0x103;

    pub const BLOCKED_SLEEPING: u16 = 0x203;

    pub const BLOCKED_FUTEX: u16 = 0x303;

    pub const BLOCKED_PORT: u16 = 0x403;

    pub const BLOCKED_CHANNEL: u16 = 0x503;

    pub const BLOCKED_WAIT_ONE: u16 = 0x603;

    pub const BLOCKED_WAIT_MANY: u16 = 0x703;

    pub const BLOCKED_INTERRUPT: u16 = 0x803;

    pub const BLOCKED_PAGER: u16 = 0x903;
}

// What a thread waits for: nothing, the end of a plain wait, or a handler.
#[derive(Clone, Copy, PartialEq, Eq)]
pub enum Waiting {
    NotWaiting,
    InWait,
    InException(Exception),
}

// The signals that a thread's shown state asserts.
#[derive(Clone, Copy, PartialEq, Eq)]
pub enum Signals {
    NoSignal,
    RunningSignal,
    SuspendedSignal,
    TerminatedSignal,
}

#[derive(Clone, Copy, PartialEq, Eq)]
pub struct Thread {
    // The tables are arrays of records, by the scope, so that one never made is a record too.
    pub made: bool,
    // On its process's list.
    pub listed: bool,
    // A start was accepted.
    pub started: bool,
    // A kill was noted; it outlives a later start.
    pub killed: bool,
    pub process: u8,
    // The stored state: never Suspended.
    pub state: u16,
    pub suspends: u16,
    pub waiting: Waiting,
    // Exception channel: level 2 (thread).
    pub level2: Level,
}

// -- Tests ---------------------------------------------------------------------------------

// What is left of a wait when the thread is stopped: a plain wait stays until it is polled, an exception is gone.
fn without_exception(waiting: Waiting) -> Waiting
    ensures { result ≡ without_exception waiting }
{
    match waiting {
        Waiting::InException(_) => Waiting::NotWaiting,
        waiting => waiting,
    }
}

impl Thread {
    // Whether it is on the list of the process of this name.
    #[tactic(auto, using(laws::proofs::Flow::branches), unfolding(crate::specs::Thread::thread_of))]
    pub fn thread_of(self, name: u8) -> bool
        ensures { result ≡ thread_of self name }
    {
        self.listed && self.process == name
    }
}

// -- Changes -------------------------------------------------------------------------------

impl Thread {
    // A thread never made.
    pub fn none() -> Thread
        ensures { result ≡ no_thread }
    {
        Thread {
            made: false,
            listed: false,
            started: false,
            killed: false,
            process: 0,
            state: ThreadState::NEW,
            suspends: 0,
            waiting: Waiting::NotWaiting,
            level2: Level::Unbound,
        }
    }

    // A thread just made in a process.
    pub fn new(process: u8) -> Thread
        ensures { result ≡ new_thread process }
    {
        Thread {
            made: true,
            listed: true,
            process,
            ..Thread::none()
        }
    }

    // `start`: Running, whatever was stored.
    pub fn start(mut self) -> Thread
        ensures { result ≡ start self }
    {
        self.started = true;
        self.state = ThreadState::RUNNING;
        self
    }

    // Stopped: an exception is over, and the kill is noted if it is one.
    fn dying(self, killed: bool) -> Thread
        ensures { result ≡ dying self killed }
    {
        Thread {
            killed,
            state: ThreadState::DYING,
            waiting: without_exception(self.waiting),
            ..self
        }
    }

    // `stop(true)`: Dying, the kill noted, an exception over. A Dead thread stays as it is.
    #[tactic(auto, using(laws::proofs::Flow::branches), unfolding(crate::specs::Thread::kill))]
    pub fn kill(self) -> Thread
        ensures { result ≡ kill self }
    {
        if self.state == ThreadState::DEAD {
            return self;
        }
        self.dying(true)
    }

    // `stop(false)`, the thread's own exit: Dying, no kill noted. A Dying or Dead thread stays as it is.
    #[tactic(auto, using(laws::proofs::Flow::branches), unfolding(crate::specs::Thread::exit))]
    pub fn exit(self) -> Thread
        ensures { result ≡ exit self }
    {
        match self.state {
            ThreadState::DYING | ThreadState::DEAD => self,
            _ => self.dying(self.killed),
        }
    }

    // `terminate`: Dead, its channel shut, off its process's list.
    pub fn finish(self) -> Thread
        ensures { result ≡ finish self }
    {
        Thread {
            listed: false,
            state: ThreadState::DEAD,
            level2: Level::Shut,
            ..self
        }
    }

    // One more suspension; a full count stays full.
    #[tactic(auto, using(laws::proofs::Flow::branches), unfolding(crate::specs::Thread::suspend))]
    pub fn suspend(mut self) -> Thread
        ensures { result ≡ suspend self }
    {
        self.suspends = self.suspends.saturating_add(1);
        self
    }

    // One suspension less; none stays none.
    #[tactic(auto, using(laws::proofs::Flow::branches), unfolding(crate::specs::Thread::resume))]
    pub fn resume(mut self) -> Thread
        ensures { result ≡ resume self }
    {
        self.suspends = self.suspends.saturating_sub(1);
        self
    }

    // The thread in a wait, in a state.
    pub fn waits(self, state: u16, waiting: Waiting) -> Thread
        ensures { result ≡ waits self state waiting }
    {
        Thread {
            state,
            waiting,
            ..self
        }
    }

    // A wait that is over: Running again, unless Dying.
    #[tactic(auto, using(laws::proofs::Flow::branches), unfolding(crate::specs::Thread::end_wait))]
    pub fn end_wait(self) -> Thread
        ensures { result ≡ end_wait self }
    {
        if self.state == ThreadState::DYING {
            return self.waits(ThreadState::DYING, Waiting::NotWaiting);
        }
        self.waits(ThreadState::RUNNING, Waiting::NotWaiting)
    }

    pub fn with_level2(mut self, level: Level) -> Thread
        ensures { result ≡ with_level2 self level }
    {
        self.level2 = level;
        self
    }

    // A made thread, or none.
    #[tactic(auto, using(laws::proofs::Flow::branches), unfolding(crate::specs::Thread::found_thread_in))]
    pub fn found(self) -> Option<Thread>
        ensures { result ≡ found_thread_in self }
    {
        self.made.then_some(self)
    }
}
