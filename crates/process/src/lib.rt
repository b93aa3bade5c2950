// process: the calls on a process, over the records that they name. Follows process.rs. Each call stands here once: its
// refusals in document 01's order, then its effect. specs/Process.antt says what a call leaves means for
// the tables.
#![tactic(auto)]

ghost use Rattle.std.specs.Prelude.{◌≡◌};
ghost use Rattle.model.specs.JobCalls.{create_process, start_process, exit_process_call, kill_process};
ghost use Rattle.model.specs.JobCalls.{set_critical_at_job, check_policy, process_information};
ghost use Rattle.model.specs.JobPolicy.{panics_at, is_denied};
ghost use Rattle.thread.specs.Pair.{SettlesBoth};
ghost use Rattle.process.specs.Process.{Makes, Exits, Binds, fields_of};
ghost use Rattle.process.specs.Process.{Checks, Shows};

use error::{Refusal, ZxError};
use job_policy::{JobPolicy, PolicyAction};
use record_job::Job;
use record_process::{Process, Status};
use record_thread::Thread;
use reply::{Fields, Information};

// -- Making and starting ---------------------------------------------------------------------

// 03: `Process::create_with_ext`; q and fixed stand under the new name. The policy is fixed when a process is made.
pub fn create_with_ext(
    job: u8,
    new: u8,
    j: Job,
    own: JobPolicy,
    inherited: JobPolicy,
    q: &mut Process,
    fixed: &mut JobPolicy,
) -> Result<(), Refusal>
    ensures { Makes (λ t. create_process t job new) job new j own inherited q.old fixed.old q.new fixed.new result }
{
    if 32 <= job {
        return Err(Refusal::PastTable);
    }
    if 64 <= new {
        return Err(Refusal::PastTable);
    }
    let Some(v) = j.found() else {
        return Err(Refusal::NotMade);
    };
    if q.made {
        return Err(Refusal::Used);
    }
    if v.killed {
        return Err(Refusal::Zx(ZxError::BadState));
    }
    *q = Process::new(job);
    *fixed = own.merge(inherited);
    Ok(())
}

// 04: `Process::start`.
pub fn start(process: u8, thread: u8, q: &mut Process, v: &mut Thread) -> Result<(), Refusal>
    ensures { SettlesBoth (λ t. start_process t process thread) process thread q.old v.old q.new v.new result }
{
    if 64 <= process {
        return Err(Refusal::PastTable);
    }
    if 128 <= thread {
        return Err(Refusal::PastTable);
    }
    let Some(old) = q.found() else {
        return Err(Refusal::NotMade);
    };
    let Some(w) = v.found() else {
        return Err(Refusal::NotMade);
    };
    if w.started {
        return Err(Refusal::OutOfTurn);
    }
    if !w.thread_of(process) {
        return Err(Refusal::Zx(ZxError::AccessDenied));
    }
    let status = old.status;
    if !status.is_init() {
        return Err(Refusal::Zx(ZxError::BadState));
    }
    *q = old.with_status(Status::Running);
    *v = w.start();
    Ok(())
}

// -- Ending ----------------------------------------------------------------------------------

// 05: `Process::exit`: the first code stays. `Ok(true)`: it exits now, and the threads that it lists are to be killed;
// it ends where it lists none.
pub fn exit(process: u8, q: &mut Process, code: i64) -> Result<bool, Refusal>
    ensures { Exits (λ t. exit_process_call t process code) process q.old q.new result }
{
    if 64 <= process {
        return Err(Refusal::PastTable);
    }
    let Some(old) = q.found() else {
        return Err(Refusal::NotMade);
    };
    let status = old.status;
    if status.is_exited() {
        return Ok(false);
    }
    *q = old.with_status(Status::Exited(code));
    Ok(true)
}

// 06: `Process::kill`.
pub fn kill(process: u8, q: &mut Process) -> Result<bool, Refusal>
    ensures { Exits (λ t. kill_process t process) process q.old q.new result }
{
    exit(process, q, Process::KILL_CODE)
}

// -- Binding ---------------------------------------------------------------------------------

// 07: `Process::set_critical_at_job`; above: the job is at or above that of the process.
pub fn set_critical_at_job(
    process: u8,
    job: u8,
    flag: u8,
    q: &mut Process,
    j: Job,
    above: bool,
) -> Result<(), Refusal>
    ensures { Binds (λ t. set_critical_at_job t process job flag) process job q.old j above q.new result }
{
    if 1 < flag {
        return Err(Refusal::BadField);
    }
    if 64 <= process {
        return Err(Refusal::PastTable);
    }
    if 32 <= job {
        return Err(Refusal::PastTable);
    }
    let Some(old) = q.found() else {
        return Err(Refusal::NotMade);
    };
    let Some(_) = j.found() else {
        return Err(Refusal::NotMade);
    };
    if old.is_critical() {
        return Err(Refusal::Zx(ZxError::AlreadyBound));
    }
    if !above {
        return Err(Refusal::Zx(ZxError::InvalidArgs));
    }
    *q = old.bind_to(job, flag == 1);
    Ok(())
}

// -- Policy and information ------------------------------------------------------------------

// The Rust has no answer for the actions 2 to 4.
#[tactic(auto, using(laws::proofs::Flow::branches), unfolding(model::specs::JobPolicy::panics_at))]
fn panics_at(found: Option<u8>) -> bool
    ensures { result ≡ panics_at found }
{
    match found {
        None | Some(PolicyAction::ALLOW | PolicyAction::DENY) => false,
        Some(_) => true,
    }
}

#[tactic(auto, using(laws::proofs::Flow::branches), unfolding(model::specs::JobPolicy::is_denied))]
fn is_denied(found: Option<u8>) -> bool
    ensures { result ≡ is_denied found }
{
    found == Some(PolicyAction::DENY)
}

// 11: `Process::check_policy`, by the policy fixed at its making.
#[tactic(auto, using(crate::proofs::Moving::moving), unfolding(model::specs::JobCalls::check_policy))]
pub fn check_policy(process: u8, condition: u8, q: Process, fixed: JobPolicy) -> Result<(), Refusal>
    ensures { Checks (λ t. check_policy t process condition) process q fixed result }
{
    if 15 <= condition {
        return Err(Refusal::BadField);
    }
    if 64 <= process {
        return Err(Refusal::PastTable);
    }
    let Some(_) = q.found() else {
        return Err(Refusal::NotMade);
    };
    let action = fixed.get_action(condition);
    if panics_at(action) {
        return Err(Refusal::Panics);
    }
    if is_denied(action) {
        return Err(Refusal::Zx(ZxError::AccessDenied));
    }
    Ok(())
}

// Code, started, exited, debugger open, terminated.
#[tactic(auto, using(laws::proofs::Flow::told), unfolding(crate::specs::Process::fields_of))]
fn fields_of(q: Process) -> Fields
    ensures { result ≡ fields_of q }
{
    Fields::ProcessFields {
        code: q.status.code(),
        started: !q.status.is_init(),
        exited: q.status.is_exited(),
        debugger: q.level1.is_bound(),
        terminated: q.terminated,
    }
}

// 1c: process information.
#[tactic(auto, using(crate::proofs::Moving::moving), unfolding(model::specs::JobCalls::process_information))]
pub fn get_info(process: u8, q: Process) -> Result<Information, Refusal>
    ensures { Shows (λ t. process_information t process) process q result }
{
    if 64 <= process {
        return Err(Refusal::PastTable);
    }
    let Some(old) = q.found() else {
        return Err(Refusal::NotMade);
    };
    Ok(Information::new(fields_of(old)))
}
