// record_process: the record of a process. The policy fixed at its making stands in a table beside the processes.
#![tactic(auto)]

ghost use Rattle.std.specs.Prelude.{◌≡◌};
ghost use Rattle.record_process.specs.Process.{is_init, is_exited, is_critical, acts};
ghost use Rattle.record_process.specs.Process.{found_process_in};
ghost use Rattle.record_process.specs.Process.{no_process, new_process, code_of, with_status};
ghost use Rattle.record_process.specs.Process.{ended, bind_to, with_level1, with_level3};
ghost use Rattle.record_process.specs.Process.{member_of};

use record_exception::Level;

#[derive(Clone, Copy, PartialEq, Eq)]
pub enum Status {
    Init,
    Running,
    Exited(i64),
}

// The job that the end of a process kills, and whether only a nonzero code does so.
#[derive(Clone, Copy, PartialEq, Eq)]
pub struct Critical {
    pub job: u8,
    pub nonzero: bool,
}

#[derive(Clone, Copy, PartialEq, Eq)]
pub struct Process {
    // The tables are arrays of records, by the scope, so that one never made is a record too.
    pub made: bool,
    // On its job's list.
    pub listed: bool,
    // Ended: no thread is left, and its channels are shut.
    pub terminated: bool,
    pub job: u8,
    pub status: Status,
    pub critical: Option<Critical>,
    // Exception channels: level 1 (process debugger) and level 3 (process).
    pub level1: Level,
    pub level3: Level,
}

impl Status {
    // The code, 0 unless Exited.
    pub fn code(self) -> i64
        ensures { result ≡ code_of self }
    {
        match self {
            Status::Exited(code) => code,
            Status::Init | Status::Running => 0,
        }
    }

    pub fn is_init(self) -> bool
        ensures { result ≡ is_init self }
    {
        matches!(self, Status::Init)
    }

    pub fn is_exited(self) -> bool
        ensures { result ≡ is_exited self }
    {
        matches!(self, Status::Exited(_))
    }
}

impl Critical {
    // Whether the binding acts at the end of a process with this code.
    #[tactic(auto, using(laws::proofs::Flow::branches), unfolding(crate::specs::Process::acts))]
    pub fn acts(self, code: i64) -> bool
        ensures { result ≡ acts self.nonzero code }
    {
        !self.nonzero || code != 0
    }
}

impl Process {
    // TASK_RETCODE_SYSCALL_KILL: the code of a killed process.
    pub const KILL_CODE: i64 = -1028;

    // A process never made.
    pub fn none() -> Process
        ensures { result ≡ no_process }
    {
        Process {
            made: false,
            listed: false,
            terminated: false,
            job: 0,
            status: Status::Init,
            critical: None,
            level1: Level::Unbound,
            level3: Level::Unbound,
        }
    }

    // A process just made in a job.
    pub fn new(job: u8) -> Process
        ensures { result ≡ new_process job }
    {
        Process {
            made: true,
            listed: true,
            job,
            ..Process::none()
        }
    }

    pub fn with_status(mut self, status: Status) -> Process
        ensures { result ≡ with_status self status }
    {
        self.status = status;
        self
    }

    // A process that ends: Exited with its code, or with 0, its channels shut and off its job's list.
    #[tactic(auto, unfolding(crate::specs::Process::ended))]
    pub fn ended(self) -> Process
        ensures { result ≡ ended self }
    {
        Process {
            listed: false,
            terminated: true,
            status: Status::Exited(self.status.code()),
            level1: Level::Shut,
            level3: Level::Shut,
            ..self
        }
    }

    // The process bound critical to a job.
    pub fn bind_to(mut self, job: u8, nonzero: bool) -> Process
        ensures { result ≡ bind_to self job nonzero }
    {
        self.critical = Some(Critical { job, nonzero });
        self
    }

    pub fn with_level1(mut self, level: Level) -> Process
        ensures { result ≡ with_level1 self level }
    {
        self.level1 = level;
        self
    }

    pub fn with_level3(mut self, level: Level) -> Process
        ensures { result ≡ with_level3 self level }
    {
        self.level3 = level;
        self
    }

    // Whether it is bound to a job.
    pub fn is_critical(self) -> bool
        ensures { result ≡ is_critical self.critical }
    {
        self.critical.is_some()
    }

    // Whether it is on the list of the job of this name.
    #[tactic(auto, using(laws::proofs::Flow::branches), unfolding(crate::specs::Process::member_of))]
    pub fn member_of(self, name: u8) -> bool
        ensures { result ≡ member_of self name }
    {
        self.listed && self.job == name
    }

    // A made process, or none.
    #[tactic(auto, using(laws::proofs::Flow::branches), unfolding(crate::specs::Process::found_process_in))]
    pub fn found(self) -> Option<Process>
        ensures { result ≡ found_process_in self }
    {
        self.made.then_some(self)
    }
}
