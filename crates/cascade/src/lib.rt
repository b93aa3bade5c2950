// cascade: killing a job, exiting a process and ending a process, which call one another. Follows job.rs and
// process.rs. Each of the three has one local of the tables, and lends and indexes none: the deepest cascade stays
// small on the stack. What they ask of a table stands in a function that is not inlined, by value, since a lent table
// would cost each frame of the cycle two more locals.
#![tactic(auto)]

ghost use Rattle.std.specs.Prelude.{◌≡◌};
ghost use Rattle.record_job.specs.Job.{child_of};
ghost use Rattle.record_process.specs.Process.{member_of};
ghost use Rattle.listed.specs.Next.{next_in};
ghost use Rattle.model.specs.Job.{is_live_job, is_live_process, kill_job, exit_process, end_process};
ghost use Rattle.model.specs.Job.{lists_thread, stop_threads, exit_listed, remove_thread};
ghost use Rattle.cascade.specs.Ends.{ends_alone, ends_here};

use listed::{any_on, next_on};
use record_job::Job;
use record_process::{Process, Status};
use record_thread::Thread;
use records::reading::{job_at, process_at};
use records::tables::Tables;
use thread_lists::{Each, each_thread};

pub mod terminate;

// -- Tests ---------------------------------------------------------------------------------

// Whether a job is made and not killed.
#[tactic(auto, using(laws::proofs::Flow::branches), unfolding(model::specs::Job::is_live_job))]
fn is_live_job(v: Job) -> bool
    ensures { result ≡ is_live_job v }
{
    v.made && !v.killed
}

// Whether a process is made and not Exited.
#[tactic(auto, using(laws::proofs::Flow::branches), unfolding(model::specs::Job::is_live_process))]
fn is_live_process(v: Process) -> bool
    ensures { result ≡ is_live_process v }
{
    v.made && !v.status.is_exited()
}

// Whether process p lists a thread.
#[tactic(auto, unfolding(model::specs::Job::lists_thread))]
#[inline(never)]
fn lists_thread(t: Tables, p: u8) -> bool
    ensures { result ≡ lists_thread t p }
{
    any_on(&t.threads, p)
}

// The next child of job j from a name on. Apart from its twin: a table lent within the cycle would cost each frame of
// the cascade two tables more.
#[tactic(auto, using(listed::proofs::Next::next_small, laws::proofs::Loops::length_mapped))]
#[inline(never)]
fn next_child(jobs: [Job; 32], j: u8, from: u8) -> Option<u8>
    ensures { result ≡ next_in (λ v. child_of v j) jobs from }
{
    next_on(&jobs, j, from)
}

// Its next process.
#[tactic(auto, using(listed::proofs::Next::next_small, laws::proofs::Loops::length_mapped))]
#[inline(never)]
fn next_process(processes: [Process; 64], j: u8, from: u8) -> Option<u8>
    ensures { result ≡ next_in (λ q. member_of q j) processes from }
{
    next_on(&processes, j, from)
}

// -- The cascade ---------------------------------------------------------------------------

// Every thread that process p lists is killed.
#[inline(never)]
fn stop_threads(mut t: Tables, p: u8) -> Tables
    ensures { result ≡ stop_threads t p }
{
    each_thread(&mut t.threads, p, Each::Kill);
    t
}

// `Job::kill`: its children, then its processes, as long as they are listed. A killed job is left alone.
#[cycle(end_process_exit_process_kill_job)]
pub fn kill_job(mut t: Tables, j: u8) -> Tables
    ensures { result ≡ kill_job t j }
{
    let job = job_at(t, j);
    if !is_live_job(job) {
        return t;
    }
    t = t.with_job(j, job.killed());
    if terminate::job_empty(t, j) {
        return terminate::terminate_job(t, j);
    }
    let mut child = 0;
    while let Some(c) = next_child(t.jobs, j, child) {
        t = kill_job(t, c);
        child = c + 1;
    }
    let mut member = 0;
    while let Some(p) = next_process(t.processes, j, member) {
        t = exit_process(t, p, Process::KILL_CODE);
        member = p + 1;
    }
    t
}

// `Process::exit`: the first code stays. A process that lists no thread ends at once.
#[cycle(end_process_exit_process_kill_job)]
pub fn exit_process(mut t: Tables, p: u8, code: i64) -> Tables
    ensures { result ≡ exit_process t p code }
{
    let process = process_at(t, p);
    if !is_live_process(process) {
        return t;
    }
    t = t.with_process(p, process.with_status(Status::Exited(code)));
    if lists_thread(t, p) {
        return stop_threads(t, p);
    }
    end_process(t, p)
}

// `Process::terminate`: the process leaves its job's list, and the job that it is bound to is killed.
#[cycle(end_process_exit_process_kill_job)]
fn end_process(mut t: Tables, p: u8) -> Tables
    ensures { result ≡ end_process t p }
{
    let process = process_at(t, p);
    let critical = process.critical;
    let code = process.status.code();
    t = terminate::unlist_process(t, p);
    match critical {
        None => t,
        Some(binding) => {
            if binding.acts(code) {
                kill_job(t, binding.job)
            } else {
                t
            }
        }
    }
}

// Whether the end of a process stays with its record; j is its job. It is bound to none, and no job terminates with it.
#[tactic(auto, using(laws::proofs::Flow::branches), unfolding(crate::specs::Ends::ends_alone))]
fn ends_alone(q: Process, j: Job) -> bool
    ensures { result ≡ ends_alone q j }
{
    !q.is_critical() && !j.killed
}

// The same of process p that is marked Exited, over the threads: it ends at once if it lists none.
#[tactic(auto, using(laws::proofs::Flow::branches), unfolding(crate::specs::Ends::ends_here))]
pub fn ends_here(p: u8, q: Process, j: Job, threads: [Thread; 128]) -> bool
    ensures { result ≡ ends_here p q j threads }
{
    !any_on(&threads, p) && q.job < 32 && ends_alone(q, j)
}

// -- Threads -------------------------------------------------------------------------------

// `Process::remove_thread`: the process ends when its last listed thread finishes.
#[tactic(auto, using(laws::proofs::Flow::branches))]
pub fn remove_thread(t: Tables, p: u8) -> Tables
    ensures { result ≡ remove_thread t p }
{
    if lists_thread(t, p) {
        return t;
    }
    end_process(t, p)
}

// A process marked Exited: its threads are killed, or it ends.
#[tactic(auto, using(laws::proofs::Flow::branches), unfolding(model::specs::Job::exit_listed, model::specs::Job::end_process))]
pub fn exit_listed(t: Tables, p: u8) -> Tables
    ensures { result ≡ exit_listed kill_job t p }
{
    if lists_thread(t, p) {
        return stop_threads(t, p);
    }
    end_process(t, p)
}
