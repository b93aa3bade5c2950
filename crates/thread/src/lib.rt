// thread: the calls on one thread, over its record alone, and its making. Follows thread.rs. Each call stands here
// once: its refusals in document 01's order, then its effect. A name goes beside its record and not with it: past the
// table it is refused, and the record is not its own. specs/Move.antt says what the record as it is left, and the
// outcome, mean for the tables.
#![tactic(auto)]

ghost use Rattle.std.specs.Prelude.{◌≡◌};
ghost use Rattle.model.specs.ThreadCalls.{start_thread, kill_thread, exit_thread, finish_thread_call};
ghost use Rattle.model.specs.ThreadCalls.{thread_information, waiting_level, begin_wait, poll_wait};
ghost use Rattle.model.specs.ThreadCalls.{is_wait_state, wait_answer, is_pending};
ghost use Rattle.model.specs.ThreadCalls.{create_thread};
ghost use Rattle.error.specs.Numbers.{answer_of};
ghost use Rattle.thread.specs.Move.{free_in, Shows, Settles, Ends};
ghost use Rattle.thread.specs.Pair.{SettlesBoth};

use error::{Refusal, ZxError};
use record_process::Process;
use record_thread::{Thread, ThreadState, Waiting};
use reply::{Fields, Information};

// -- Making ----------------------------------------------------------------------------------

// 08: `Thread::create_with_ext`; v is the record of the new name.
pub fn create_with_ext(process: u8, new: u8, q: Process, v: &mut Thread) -> Result<(), Refusal>
    ensures { SettlesBoth (λ t. create_thread t process new) process new q v.old q v.new result }
{
    if 64 <= process {
        return Err(Refusal::PastTable);
    }
    if 128 <= new {
        return Err(Refusal::PastTable);
    }
    let Some(old) = q.found() else {
        return Err(Refusal::NotMade);
    };
    if v.made {
        return Err(Refusal::Used);
    }
    let status = old.status;
    if status.is_exited() {
        return Err(Refusal::Zx(ZxError::BadState));
    }
    *v = Thread::new(process);
    Ok(())
}

// -- Running and ending ----------------------------------------------------------------------

// 09: `Thread::start`.
#[tactic(auto, using(crate::proofs::Moving::settling), unfolding(model::specs::ThreadCalls::start_thread))]
pub fn start(thread: u8, v: &mut Thread) -> Result<(), Refusal>
    ensures { Settles (λ t. start_thread t thread) thread v.old v.new result }
{
    if 128 <= thread {
        return Err(Refusal::PastTable);
    }
    let Some(w) = v.found() else {
        return Err(Refusal::NotMade);
    };
    if w.started {
        return Err(Refusal::OutOfTurn);
    }
    *v = w.start();
    Ok(())
}

// 0a: `Thread::kill`.
#[tactic(auto, using(crate::proofs::Moving::settling), unfolding(model::specs::ThreadCalls::kill_thread))]
pub fn kill(thread: u8, v: &mut Thread) -> Result<(), Refusal>
    ensures { Settles (λ t. kill_thread t thread) thread v.old v.new result }
{
    if 128 <= thread {
        return Err(Refusal::PastTable);
    }
    let Some(w) = v.found() else {
        return Err(Refusal::NotMade);
    };
    *v = w.kill();
    Ok(())
}

// The thread that a call of its own is on: it runs, and is in no wait.
fn free(thread: u8, v: Thread) -> Result<Thread, Refusal>
    ensures { result ≡ free_in thread v }
{
    if 128 <= thread {
        return Err(Refusal::PastTable);
    }
    let Some(w) = v.found() else {
        return Err(Refusal::NotMade);
    };
    if !w.is_free() {
        return Err(Refusal::OutOfTurn);
    }
    Ok(w)
}

// 0b: `CurrentThread::exit`.
pub fn exit(thread: u8, v: &mut Thread) -> Result<(), Refusal>
    ensures { Settles (λ t. exit_thread t thread) thread v.old v.new result }
{
    let w = free(thread, *v)?;
    *v = w.exit();
    Ok(())
}

// 0c: `CurrentThread` dropped. Where it is accepted the thread is finished, and its process is left with one less.
pub fn finish(thread: u8, v: &mut Thread) -> Result<(), Refusal>
    ensures { Ends (λ t. finish_thread_call t thread) thread v.old v.new result }
{
    let w = free(thread, *v)?;
    *v = w.finish();
    Ok(())
}

// -- Plain waits -----------------------------------------------------------------------------

// Blocked (3), or 0x203 to 0x903 in steps of 0x100.
#[tactic(auto, using(laws::proofs::Flow::branches), unfolding(model::specs::ThreadCalls::is_wait_state))]
fn is_wait_state(state: u16) -> bool
    ensures { result ≡ is_wait_state state }
{
    match state {
        ThreadState::BLOCKED => true,
        ThreadState::BLOCKED_SLEEPING..=ThreadState::BLOCKED_PAGER => state % 0x100 == 3,
        _ => false,
    }
}

// 19: begins a plain wait. None begins while Dying.
#[tactic(auto, using(crate::proofs::Moving::settling), unfolding(model::specs::ThreadCalls::begin_wait, model::specs::ThreadCalls::wait_begun))]
pub fn begin_wait(thread: u8, v: &mut Thread, state: u16) -> Result<(), Refusal>
    ensures { Settles (λ t. begin_wait t thread state) thread v.old v.new result }
{
    if !is_wait_state(state) {
        return Err(Refusal::BadField);
    }
    let w = free(thread, *v)?;
    if w.state == ThreadState::DYING {
        return Err(Refusal::Zx(ZxError::Stop));
    }
    *v = w.waits(state, Waiting::InWait);
    Ok(())
}

// The first that is true: done, killed since it began, deadline, cancelled; else still pending.
fn wait_answer(v: Thread, ready: u8) -> Result<(), Refusal>
    ensures { answer_of result ≡ wait_answer v ready }
{
    if ready & 1 != 0 {
        return Ok(());
    }
    if v.state == ThreadState::DYING {
        return Err(Refusal::Zx(ZxError::Stop));
    }
    if ready & 2 != 0 {
        return Err(Refusal::Zx(ZxError::TimedOut));
    }
    if ready & 4 != 0 {
        return Err(Refusal::Zx(ZxError::Canceled));
    }
    Err(Refusal::Zx(ZxError::ShouldWait))
}

#[tactic(auto, using(laws::proofs::Flow::branches), unfolding(model::specs::ThreadCalls::is_pending))]
fn is_pending(v: Thread, ready: u8) -> bool
    ensures { result ≡ is_pending v ready }
{
    ready == 0 && v.state != ThreadState::DYING
}

// 1a: polls a plain wait. Once it is over the thread is out of it, whatever the outcome.
#[tactic(auto, using(crate::proofs::Moving::settling), unfolding(model::specs::ThreadCalls::poll_wait, model::specs::ThreadCalls::wait_polled))]
pub fn poll_wait(thread: u8, v: &mut Thread, ready: u8) -> Result<(), Refusal>
    ensures { Settles (λ t. poll_wait t thread ready) thread v.old v.new result }
{
    if 7 < ready {
        return Err(Refusal::BadField);
    }
    if 128 <= thread {
        return Err(Refusal::PastTable);
    }
    let Some(w) = v.found() else {
        return Err(Refusal::NotMade);
    };
    if !w.is_in_wait() {
        return Err(Refusal::OutOfTurn);
    }
    if is_pending(w, ready) {
        return Err(Refusal::Zx(ZxError::ShouldWait));
    }
    *v = w.end_wait();
    wait_answer(w, ready)
}

// -- Information -----------------------------------------------------------------------------

// The level at which a handler has the thread's exception, 0 where none.
fn waiting_level(waiting: Waiting) -> u8
    ensures { result ≡ waiting_level waiting }
{
    match waiting {
        Waiting::NotWaiting => 0,
        Waiting::InWait => 0,
        Waiting::InException(e) => {
            let place = e.place;
            place.current()
        }
    }
}

// 1d: thread information.
#[tactic(auto, using(crate::proofs::Moving::settling), unfolding(model::specs::ThreadCalls::thread_information, model::specs::ThreadCalls::thread_info))]
pub fn get_thread_info(thread: u8, v: Thread) -> Result<Information, Refusal>
    ensures { Shows (λ t. thread_information t thread) thread v result }
{
    if 128 <= thread {
        return Err(Refusal::PastTable);
    }
    let Some(w) = v.found() else {
        return Err(Refusal::NotMade);
    };
    let waiting = w.waiting;
    Ok(Information::new(Fields::ThreadFields {
        state: w.state(),
        level: waiting_level(waiting),
        suspends: w.suspends,
    }))
}
