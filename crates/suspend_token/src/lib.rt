// suspend_token: suspending and resuming a task, and tokens, over the records that they name. Follows
// suspend_token.rs, and `suspend` and `resume` of thread.rs and process.rs. Each call stands here once: its refusals
// in document 01's order, then its effect. Of a process each thread that it lists is concerned: `barred` says whether
// one bars the change, and an accepted call whether each is to be changed: the one thread is as it was then.
// A kind goes beside its name and its three records and not with them: until it is known to be one of the three, and
// the name to be in its table, they are nobody's. specs/SuspendToken.antt says what a call leaves means for the tables.
#![tactic(auto)]

ghost use Rattle.std.specs.Prelude.{◌≡◌};
ghost use Rattle.error.specs.Numbers.{number_of};
ghost use Rattle.laws.specs.Choice.{◌=?◌, if◌then◌otherwise◌};
ghost use Rattle.thread_lists.specs.Each.{SUSPEND, RESUME, one_of};
ghost use Rattle.record_token.specs.SuspendToken.{number};
ghost use Rattle.records.specs.Owners.{tasks_of};
ghost use Rattle.model.specs.SuspendToken.{PROCESS};
ghost use Rattle.model.specs.ThreadCalls.{create_token_call, drop_token_call, suspend_call, resume_call};
ghost use Rattle.suspend_token.specs.SuspendToken.{found_task_in, bars_in, none_in, change_call};
ghost use Rattle.suspend_token.specs.SuspendToken.{Changes, Creates, Drops};

use error::Refusal;
use record_job::Job;
use record_process::Process;
use record_thread::Thread;
use record_token::{Kind, SuspendToken};
use thread_lists::{Change, Each};

// -- Tasks -------------------------------------------------------------------------------------

// How many names a kind has.
#[tactic(auto, using(laws::proofs::Flow::branches), unfolding(records::specs::Owners::tasks_of))]
fn tasks_of(kind: Kind) -> u8
    ensures { result ≡ tasks_of (number kind) }
{
    match kind {
        Kind::Job => 32,
        Kind::Process => 64,
        Kind::Thread => 128,
    }
}

// Whether a task is made.
#[tactic(auto, using(laws::proofs::Flow::branches), unfolding(crate::specs::SuspendToken::found_task_in, records::specs::Owners::as_task))]
fn found_task(kind: Kind, v: Thread, q: Process, j: Job) -> Option<()>
    ensures { result ≡ found_task_in (number kind) v q j }
{
    match kind {
        Kind::Job => j.found().map(|_| ()),
        Kind::Process => q.found().map(|_| ()),
        Kind::Thread => v.found().map(|_| ()),
    }
}

// Whether a thread concerned bars the change.
#[tactic(auto, using(laws::proofs::Flow::branches), unfolding(crate::specs::SuspendToken::bars_in))]
fn bars(change: Each, kind: Kind, v: Thread, barred: bool) -> bool
    ensures { result ≡ bars_in change (number kind) v barred }
{
    if kind == Kind::Process {
        return barred;
    }
    change.bars(v)
}

// An accepted change. Answers whether it is of each thread of a process; else this one is changed.
#[tactic(auto, using(laws::proofs::Flow::branches))]
fn changed(change: Each, kind: Kind, v: &mut Thread) -> bool
    ensures each { result ≡ (number kind =? PROCESS) }
    ensures one { v.new ≡ (if number kind =? PROCESS then v.old otherwise one_of change v.old) }
{
    if kind == Kind::Process {
        return true;
    }
    *v = change.after(*v);
    false
}

// -- Suspending and resuming -------------------------------------------------------------------

// 1e and 1f: but for the change, they differ in how it is refused where a thread concerned bars it. A job can't be
// suspended: the Rust panics.
#[tactic(auto, using(crate::proofs::Moving::changing), unfolding(crate::specs::SuspendToken::change_call))]
fn change_task(
    change: Each,
    bar: Refusal,
    kind: u8,
    name: u8,
    v: &mut Thread,
    q: Process,
    j: Job,
    barred: bool,
) -> Result<bool, Refusal>
    ensures { Changes change (λ t. change_call change (number_of bar) t kind name) kind name v.old v.new q j barred
        result }
{
    let Ok(kind) = Kind::try_from(kind) else {
        return Err(Refusal::BadField);
    };
    if tasks_of(kind) <= name {
        return Err(Refusal::PastTable);
    }
    let Some(()) = found_task(kind, *v, q, j) else {
        return Err(Refusal::NotMade);
    };
    if kind == Kind::Job {
        return Err(Refusal::Panics);
    }
    if bars(change, kind, *v, barred) {
        return Err(bar);
    }
    Ok(changed(change, kind, v))
}

// 1e: `Task::suspend`.
#[tactic(auto, using(crate::proofs::Moving::suspends))]
pub fn suspend(
    kind: u8,
    name: u8,
    v: &mut Thread,
    q: Process,
    j: Job,
    barred: bool,
) -> Result<bool, Refusal>
    ensures { Changes SUSPEND (λ t. suspend_call t kind name) kind name v.old v.new q j barred result }
{
    change_task(Each::Suspend, Refusal::Full, kind, name, v, q, j, barred)
}

// 1f: `Task::resume`.
#[tactic(auto, using(crate::proofs::Moving::resumes))]
pub fn resume(
    kind: u8,
    name: u8,
    v: &mut Thread,
    q: Process,
    j: Job,
    barred: bool,
) -> Result<bool, Refusal>
    ensures { Changes RESUME (λ t. resume_call t kind name) kind name v.old v.new q j barred result }
{
    change_task(Each::Resume, Refusal::Panics, kind, name, v, q, j, barred)
}

// -- Tokens ----------------------------------------------------------------------------------

// 0d: `SuspendToken::create`; k is the record of the new name. Making a token suspends its task.
#[tactic(auto, using(crate::proofs::Moving::changing), unfolding(model::specs::ThreadCalls::create_token_call))]
pub fn create(
    new: u8,
    kind: u8,
    name: u8,
    k: &mut SuspendToken,
    v: &mut Thread,
    q: Process,
    j: Job,
    barred: bool,
) -> Result<bool, Refusal>
    ensures { Creates (λ t. create_token_call t new kind name) new kind name k.old k.new v.old v.new q j barred result }
{
    let Ok(kind) = Kind::try_from(kind) else {
        return Err(Refusal::BadField);
    };
    if 64 <= new {
        return Err(Refusal::PastTable);
    }
    if tasks_of(kind) <= name {
        return Err(Refusal::PastTable);
    }
    let Some(()) = found_task(kind, *v, q, j) else {
        return Err(Refusal::NotMade);
    };
    if k.made {
        return Err(Refusal::Used);
    }
    if kind == Kind::Job {
        return Err(Refusal::Panics);
    }
    if bars(Each::Suspend, kind, *v, barred) {
        return Err(Refusal::Full);
    }
    *k = SuspendToken::holding(kind, name);
    Ok(changed(Each::Suspend, kind, v))
}

// Whether a thread concerned has no suspension; a name past the table has none.
#[tactic(auto, using(laws::proofs::Flow::branches), unfolding(crate::specs::SuspendToken::none_in))]
fn none_at(kind: Kind, name: u8, v: Thread, barred: bool) -> bool
    ensures { result ≡ none_in (number kind) name v barred }
{
    if kind == Kind::Process {
        return barred;
    }
    128 <= name || v.suspends == 0
}

// 0e: a token dropped; v is the thread of the name that it holds. Where a thread concerned has 0, all counts and the
// token stay.
#[tactic(auto, using(crate::proofs::Moving::dropping), unfolding(model::specs::ThreadCalls::drop_token_call))]
pub fn drop(token: u8, k: &mut SuspendToken, v: &mut Thread, barred: bool) -> Result<bool, Refusal>
    ensures { Drops (λ t. drop_token_call t token) token k.old k.new v.old v.new barred result }
{
    if 64 <= token {
        return Err(Refusal::PastTable);
    }
    let Some(held) = k.found() else {
        return Err(Refusal::NotMade);
    };
    if none_at(held.kind, held.name, *v, barred) {
        return Err(Refusal::Panics);
    }
    *k = k.drop();
    Ok(changed(Each::Resume, held.kind, v))
}
