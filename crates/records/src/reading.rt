// reading.rt: the record of a name, from the tables or from the one table that is looked at. Past a table there is
// nothing.
ghost use Rattle.std.specs.Prelude.{◌≡◌, get_or};
ghost use Rattle.job_policy.specs.Policy.{no_policy};
ghost use Rattle.record_job.specs.Job.{no_job};
ghost use Rattle.record_process.specs.Process.{no_process};
ghost use Rattle.record_thread.specs.Thread.{no_thread};
ghost use Rattle.record_token.specs.SuspendToken.{no_token};
ghost use Rattle.records.specs.Tables.{job_at, own_at, inherited_at, process_at, fixed_at, thread_at, token_at};

use crate::tables::Tables;
use job_policy::JobPolicy;
use record_job::Job;
use record_process::Process;
use record_thread::Thread;
use record_token::SuspendToken;

// The record under a name, of any table.
fn entry<T: Copy, const N: usize>(table: &[T; N], name: u8, none: T) -> T
    ensures { result ≡ get_or table.now name none }
{
    table.get(name as usize).copied().unwrap_or(none)
}

pub fn job_in(jobs: [Job; 32], name: u8) -> Job
    ensures { result ≡ get_or jobs name no_job }
{
    entry(&jobs, name, Job::none())
}

// -- All tables: one for each, since each contract names its own field ---------------------

#[tactic(auto, unfolding(crate::specs::Tables::job_at))]
pub fn job_at(t: Tables, name: u8) -> Job
    ensures { result ≡ job_at t name }
{
    entry(&t.jobs, name, Job::none())
}

#[tactic(auto, unfolding(crate::specs::Tables::own_at))]
pub fn own_at(t: Tables, name: u8) -> JobPolicy
    ensures { result ≡ own_at t name }
{
    entry(&t.own, name, JobPolicy::none())
}

#[tactic(auto, unfolding(crate::specs::Tables::inherited_at))]
pub fn inherited_at(t: Tables, name: u8) -> JobPolicy
    ensures { result ≡ inherited_at t name }
{
    entry(&t.inherited, name, JobPolicy::none())
}

#[tactic(auto, unfolding(crate::specs::Tables::process_at))]
pub fn process_at(t: Tables, name: u8) -> Process
    ensures { result ≡ process_at t name }
{
    entry(&t.processes, name, Process::none())
}

#[tactic(auto, unfolding(crate::specs::Tables::fixed_at))]
pub fn fixed_at(t: Tables, name: u8) -> JobPolicy
    ensures { result ≡ fixed_at t name }
{
    entry(&t.fixed, name, JobPolicy::none())
}

#[tactic(auto, unfolding(crate::specs::Tables::thread_at))]
pub fn thread_at(t: Tables, name: u8) -> Thread
    ensures { result ≡ thread_at t name }
{
    entry(&t.threads, name, Thread::none())
}

#[tactic(auto, unfolding(crate::specs::Tables::token_at))]
pub fn token_at(t: Tables, name: u8) -> SuspendToken
    ensures { result ≡ token_at t name }
{
    entry(&t.tokens, name, SuspendToken::none())
}
