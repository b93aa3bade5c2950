// tables.rt: the records of all names. Policies stand beside jobs and processes: within the records each scan and copy
// of a table takes them along, and a call takes a tenth more instructions (603 for 548), on exceptions a quarter.
ghost use Rattle.std.specs.Prelude.{◌≡◌, set};
ghost use Rattle.records.specs.Tables.{put_job, put_own, put_inherited, put_process};
ghost use Rattle.records.specs.Tables.{put_fixed, put_thread, put_token, fresh_tables};

use job_policy::JobPolicy;
use record_job::Job;
use record_process::Process;
use record_thread::Thread;
use record_token::SuspendToken;

#[derive(Clone, Copy, PartialEq, Eq)]
pub struct Tables {
    pub jobs: [Job; 32],
    // What a job's own policy lists set, and what it inherited when it was made.
    pub own: [JobPolicy; 32],
    pub inherited: [JobPolicy; 32],
    pub processes: [Process; 64],
    // The policy of a process, fixed when it was made.
    pub fixed: [JobPolicy; 64],
    pub threads: [Thread; 128],
    pub tokens: [SuspendToken; 64],
}

// -- The start -----------------------------------------------------------------------------

// The root alone is made.
#[tactic(auto, unfolding(crate::specs::Tables::fresh_tables))]
pub fn fresh_tables() -> Tables
    ensures { result ≡ fresh_tables }
{
    let mut jobs = [Job::none(); 32];
    jobs[0] = Job::root();
    let policies = [JobPolicy::none(); 32];
    Tables {
        jobs,
        own: policies,
        inherited: policies,
        processes: [Process::none(); 64],
        fixed: [JobPolicy::none(); 64],
        threads: [Thread::none(); 128],
        tokens: [SuspendToken::none(); 64],
    }
}

// -- Storing -------------------------------------------------------------------------------

// Stores under a name, in any table; past the table it does nothing.
fn store<T: Copy, const N: usize>(table: &mut [T; N], name: u8, v: T)
    ensures { table.new ≡ set table.old name v }
{
    let i = name as usize;
    if i < N {
        table[i] = v;
    }
}

// One for each table, since each contract names its own field.
impl Tables {
    #[tactic(auto, unfolding(crate::specs::Tables::put_job))]
    pub fn with_job(mut self, name: u8, v: Job) -> Tables
        ensures { result ≡ put_job self name v }
    {
        store(&mut self.jobs, name, v);
        self
    }

    #[tactic(auto, unfolding(crate::specs::Tables::put_own))]
    pub fn with_own(mut self, name: u8, v: JobPolicy) -> Tables
        ensures { result ≡ put_own self name v }
    {
        store(&mut self.own, name, v);
        self
    }

    #[tactic(auto, unfolding(crate::specs::Tables::put_inherited))]
    pub fn with_inherited(mut self, name: u8, v: JobPolicy) -> Tables
        ensures { result ≡ put_inherited self name v }
    {
        store(&mut self.inherited, name, v);
        self
    }

    #[tactic(auto, unfolding(crate::specs::Tables::put_process))]
    pub fn with_process(mut self, name: u8, v: Process) -> Tables
        ensures { result ≡ put_process self name v }
    {
        store(&mut self.processes, name, v);
        self
    }

    #[tactic(auto, unfolding(crate::specs::Tables::put_fixed))]
    pub fn with_fixed(mut self, name: u8, v: JobPolicy) -> Tables
        ensures { result ≡ put_fixed self name v }
    {
        store(&mut self.fixed, name, v);
        self
    }

    #[tactic(auto, unfolding(crate::specs::Tables::put_thread))]
    pub fn with_thread(mut self, name: u8, v: Thread) -> Tables
        ensures { result ≡ put_thread self name v }
    {
        store(&mut self.threads, name, v);
        self
    }

    #[tactic(auto, unfolding(crate::specs::Tables::put_token))]
    pub fn with_token(mut self, name: u8, v: SuspendToken) -> Tables
        ensures { result ≡ put_token self name v }
    {
        store(&mut self.tokens, name, v);
        self
    }
}
