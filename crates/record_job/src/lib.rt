// record_job: the record of a job. Its policies stand in tables of their own, beside the jobs.
#![tactic(auto)]

ghost use Rattle.std.specs.Prelude.{◌≡◌};
ghost use Rattle.record_job.specs.Job.{found_job_in};
ghost use Rattle.record_job.specs.Job.{no_job, root_job, new_job, killed, terminated};
ghost use Rattle.record_job.specs.Job.{with_level4, with_level5, is_parent, child_of};

use job_policy::TimerSlack;
use record_exception::Level;

#[derive(Clone, Copy, PartialEq, Eq)]
pub struct Job {
    // The tables are arrays of records, by the scope, so that one never made is a record too.
    pub made: bool,
    // On its parent's list.
    pub listed: bool,
    pub killed: bool,
    pub terminated: bool,
    // The root and an unmade job have none.
    pub parent: Option<u8>,
    // Exception channels: level 4 (job) and level 5 (job debugger).
    pub level4: Level,
    pub level5: Level,
    pub slack: TimerSlack,
}

impl Job {
    // A job never made.
    pub fn none() -> Job
        ensures { result ≡ no_job }
    {
        Job {
            made: false,
            listed: false,
            killed: false,
            terminated: false,
            parent: None,
            level4: Level::Unbound,
            level5: Level::Unbound,
            slack: TimerSlack::fresh(),
        }
    }

    // The fresh root: no list has it.
    pub fn root() -> Job
        ensures { result ≡ root_job }
    {
        Job {
            made: true,
            ..Job::none()
        }
    }

    // A job just made below another.
    pub fn new(parent: u8) -> Job
        ensures { result ≡ new_job parent }
    {
        Job {
            made: true,
            listed: true,
            parent: Some(parent),
            ..Job::none()
        }
    }

    pub fn killed(mut self) -> Job
        ensures { result ≡ killed self }
    {
        self.killed = true;
        self
    }

    // A killed job that lists nothing more: its channels are shut, and it leaves its parent's list.
    pub fn terminated(self) -> Job
        ensures { result ≡ terminated self }
    {
        Job {
            listed: false,
            terminated: true,
            level4: Level::Shut,
            level5: Level::Shut,
            ..self
        }
    }

    pub fn with_level4(mut self, level: Level) -> Job
        ensures { result ≡ with_level4 self level }
    {
        self.level4 = level;
        self
    }

    pub fn with_level5(mut self, level: Level) -> Job
        ensures { result ≡ with_level5 self level }
    {
        self.level5 = level;
        self
    }

    // Whether it is on the list of the job of this name.
    #[tactic(auto, using(laws::proofs::Flow::branches), unfolding(crate::specs::Job::child_of))]
    pub fn child_of(self, name: u8) -> bool
        ensures { result ≡ child_of self name }
    {
        self.listed && self.parent == Some(name)
    }

    // A made job, or none.
    #[tactic(auto, using(laws::proofs::Flow::branches), unfolding(crate::specs::Job::found_job_in))]
    pub fn found(self) -> Option<Job>
        ensures { result ≡ found_job_in self }
    {
        self.made.then_some(self)
    }
}
