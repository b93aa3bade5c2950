// exceptionate: the calls on a handler's channel and on a thread's exception, over the record that they name. Follows
// exception.rs. Each call stands here once: its refusals in document 01's order, then its effect. A name goes beside
// its record and not with it: past the table it is refused, and the record is not its own.
#![tactic(auto)]

ghost use Rattle.std.specs.Prelude.{◌≡◌};
ghost use Rattle.model.specs.ExceptionCalls.{set_state, has_strategy, set_strategy, get_process_handle};
ghost use Rattle.thread.specs.Move.{Settles};
ghost use Rattle.exceptionate.specs.Exceptionate.{created, hung_up, level_after, on_level};
ghost use Rattle.exceptionate.specs.Exceptionate.{of_process, SettlesProcess, of_job, SettlesJob, Checks};

use error::{Refusal, ZxError};
use record_exception::{Exception, Level};
use record_job::Job;
use record_process::Process;
use record_thread::{Thread, Waiting};

// -- Channels: what a call makes of a level ----------------------------------------------------

// 12 and 13. An enum and no closure: the clauses of what both share name the call, and `after` alone tells them apart.
#[derive(Clone, Copy)]
pub enum ChannelCall {
    CreateChannel,
    HangUp,
}

// 12: `Exceptionate::create_channel`.
fn create_channel(level: Level) -> Result<Level, Refusal>
    ensures { result ≡ created level }
{
    match level {
        Level::Shut => Err(Refusal::Zx(ZxError::BadState)),
        Level::Bound => Err(Refusal::Zx(ZxError::AlreadyBound)),
        Level::Unbound | Level::HungUp => Ok(Level::Bound),
    }
}

// 13: the handler hangs up.
fn hang_up(level: Level) -> Result<Level, Refusal>
    ensures { result ≡ hung_up level }
{
    match level {
        Level::Bound => Ok(Level::HungUp),
        Level::Unbound | Level::HungUp | Level::Shut => Err(Refusal::OutOfTurn),
    }
}

impl ChannelCall {
    // The level after the call.
    fn after(self, level: Level) -> Result<Level, Refusal>
        ensures { result ≡ level_after self level }
    {
        match self {
            ChannelCall::CreateChannel => create_channel(level),
            ChannelCall::HangUp => hang_up(level),
        }
    }
}

// -- Channels: whose level it is ---------------------------------------------------------------

// 12 and 13 on level 2, a thread's.
pub fn on_thread(call: ChannelCall, thread: u8, v: &mut Thread) -> Result<(), Refusal>
    ensures { Settles (λ t. on_level call t 2 thread) thread v.old v.new result }
{
    if 128 <= thread {
        return Err(Refusal::PastTable);
    }
    let Some(w) = v.found() else {
        return Err(Refusal::NotMade);
    };
    v.level2 = call.after(w.level2)?;
    Ok(())
}

// 12 and 13 on level 1 (the debugger's) or 3, a process's.
pub fn on_process(
    call: ChannelCall,
    debugger: bool,
    process: u8,
    q: &mut Process,
) -> Result<(), Refusal>
    ensures { SettlesProcess (λ t. on_level call t (of_process debugger) process) process q.old q.new result }
{
    if 64 <= process {
        return Err(Refusal::PastTable);
    }
    let Some(w) = q.found() else {
        return Err(Refusal::NotMade);
    };
    if debugger {
        q.level1 = call.after(w.level1)?;
    } else {
        q.level3 = call.after(w.level3)?;
    }
    Ok(())
}

// 12 and 13 on level 5 (the debugger's) or 4, a job's. Apart from `on_process`: the records' levels have other names.
pub fn on_job(call: ChannelCall, debugger: bool, job: u8, j: &mut Job) -> Result<(), Refusal>
    ensures { SettlesJob (λ t. on_level call t (of_job debugger) job) job j.old j.new result }
{
    if 32 <= job {
        return Err(Refusal::PastTable);
    }
    let Some(w) = j.found() else {
        return Err(Refusal::NotMade);
    };
    if debugger {
        j.level5 = call.after(w.level5)?;
    } else {
        j.level4 = call.after(w.level4)?;
    }
    Ok(())
}

// -- What a handler sets and asks while it has an exception --------------------------------------

// 16: `ExceptionObject::set_state`.
#[tactic(auto, using(thread::proofs::Moving::settling), unfolding(model::specs::ExceptionCalls::set_state))]
pub fn set_state(thread: u8, v: &mut Thread, state: u32) -> Result<(), Refusal>
    ensures { Settles (λ t. set_state t thread state) thread v.old v.new result }
{
    if 128 <= thread {
        return Err(Refusal::PastTable);
    }
    let Some(w) = v.found() else {
        return Err(Refusal::NotMade);
    };
    let Some(e) = w.exception() else {
        return Err(Refusal::OutOfTurn);
    };
    if 1 < state {
        return Err(Refusal::Zx(ZxError::InvalidArgs));
    }
    v.waiting = Waiting::InException(Exception {
        handled: state == 1,
        ..e
    });
    Ok(())
}

// Levels 1 and 5; ThreadExiting has no current level.
fn has_strategy(e: Exception) -> bool
    ensures { result ≡ has_strategy e }
{
    let level = e.place.current();
    level == 1 || level == 5
}

// 17: `ExceptionObject::set_strategy`.
#[tactic(auto, using(thread::proofs::Moving::settling), unfolding(model::specs::ExceptionCalls::set_strategy))]
pub fn set_strategy(thread: u8, v: &mut Thread, strategy: u32) -> Result<(), Refusal>
    ensures { Settles (λ t. set_strategy t thread strategy) thread v.old v.new result }
{
    if 128 <= thread {
        return Err(Refusal::PastTable);
    }
    let Some(w) = v.found() else {
        return Err(Refusal::NotMade);
    };
    let Some(e) = w.exception() else {
        return Err(Refusal::OutOfTurn);
    };
    if 1 < strategy {
        return Err(Refusal::Zx(ZxError::InvalidArgs));
    }
    if !has_strategy(e) {
        return Err(Refusal::Zx(ZxError::BadState));
    }
    v.waiting = Waiting::InException(Exception {
        second: strategy == 1,
        ..e
    });
    Ok(())
}

// 18: `ExceptionObject::get_process_handle`.
#[tactic(auto, using(thread::proofs::Moving::settling), unfolding(model::specs::ExceptionCalls::get_process_handle))]
pub fn get_process_handle(thread: u8, v: Thread) -> Result<(), Refusal>
    ensures { Checks (λ t. get_process_handle t thread) thread v result }
{
    if 128 <= thread {
        return Err(Refusal::PastTable);
    }
    let Some(w) = v.found() else {
        return Err(Refusal::NotMade);
    };
    let Some(e) = w.exception() else {
        return Err(Refusal::OutOfTurn);
    };
    if e.place.current() == 2 {
        return Err(Refusal::Zx(ZxError::AccessDenied));
    }
    Ok(())
}
