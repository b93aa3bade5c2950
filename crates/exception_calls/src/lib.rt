// exception_calls: the calls on exceptions and their channels, on the tables: 12 to 18. Each lends crate exception or
// exceptionate the records that it names, in their places. What each comes to is in model/specs/ExceptionCalls.antt.
#![tactic(auto, using(crate::proofs::Lending::lending), unfolding(thread::specs::Move::settled, process::specs::Process::settled, job::specs::Job::settled, exception::specs::Raise::gone_on, records::specs::Tables::put_thread, records::specs::Tables::put_process, records::specs::Tables::put_job))]

ghost use Rattle.std.specs.Prelude.{◌≡◌};
ghost use Rattle.error.specs.Numbers.{answer_of};
ghost use Rattle.model.specs.ExceptionCalls.{bind_level, hang_up_level, raise_exception, close_exception};
ghost use Rattle.model.specs.ExceptionCalls.{set_state, set_strategy, get_process_handle};
ghost use Rattle.reply.specs.Reply.{answered};
ghost use Rattle.exception.specs.Raise.{raised_in, exits, gone_on};
ghost use Rattle.exceptionate.specs.Exceptionate.{on_level, of_process, of_job};

use error::Refusal;
use exception::Raised;
use exceptionate::ChannelCall;
use records::tables::Tables;

// -- Channels: the level picks the table -------------------------------------------------------

fn on_thread(call: ChannelCall, t: &mut Tables, thread: u8) -> Result<(), Refusal>
    ensures { answered t.new (answer_of result) ≡ on_level call t.old 2 thread }
{
    exceptionate::on_thread(call, thread, &mut t.threads[(thread % 128) as usize])
}

fn on_process(call: ChannelCall, t: &mut Tables, debugger: bool, process: u8) -> Result<(), Refusal>
    ensures { answered t.new (answer_of result) ≡ on_level call t.old (of_process debugger) process }
{
    let q = &mut t.processes[(process % 64) as usize];
    exceptionate::on_process(call, debugger, process, q)
}

fn on_job(call: ChannelCall, t: &mut Tables, debugger: bool, job: u8) -> Result<(), Refusal>
    ensures { answered t.new (answer_of result) ≡ on_level call t.old (of_job debugger) job }
{
    exceptionate::on_job(call, debugger, job, &mut t.jobs[(job % 32) as usize])
}

// A level outside 1 to 5 is refused before the owner is looked at.
#[tactic(auto, using(crate::proofs::Levels::no_level))]
fn on_level(call: ChannelCall, t: &mut Tables, level: u8, owner: u8) -> Result<(), Refusal>
    ensures { answered t.new (answer_of result) ≡ on_level call t.old level owner }
{
    match level {
        1 => on_process(call, t, true, owner),
        2 => on_thread(call, t, owner),
        3 => on_process(call, t, false, owner),
        4 => on_job(call, t, false, owner),
        5 => on_job(call, t, true, owner),
        _ => Err(Refusal::BadField),
    }
}

// 12: `Exceptionate::create_channel`.
#[tactic(auto, unfolding(exceptionate::specs::Exceptionate::on_level))]
pub fn create_channel(t: &mut Tables, level: u8, owner: u8) -> Result<(), Refusal>
    ensures { answered t.new (answer_of result) ≡ bind_level t.old level owner }
{
    on_level(ChannelCall::CreateChannel, t, level, owner)
}

// 13: the handler hangs up.
#[tactic(auto, unfolding(exceptionate::specs::Exceptionate::on_level))]
pub fn hang_up(t: &mut Tables, level: u8, owner: u8) -> Result<(), Refusal>
    ensures { answered t.new (answer_of result) ≡ hang_up_level t.old level owner }
{
    on_level(ChannelCall::HangUp, t, level, owner)
}

// -- Raise and close ---------------------------------------------------------------------------

fn exits(done: Result<Raised, Refusal>) -> bool
    ensures { result ≡ exits done }
{
    matches!(done, Ok(Raised::Exits))
}

// Where the process exits, its threads are killed, or it ends.
fn go_on(t: &mut Tables, process: u8, done: Result<Raised, Refusal>)
    ensures { t.new ≡ gone_on t.old process done }
{
    if exits(done) {
        *t = cascade::exit_listed(*t, process);
    }
}

// 14: `CurrentThread::handle_exception`.
pub fn handle_exception(t: &mut Tables, thread: u8, kind: u16) -> Result<Raised, Refusal>
    ensures { raised_in t.new result ≡ raise_exception t.old thread kind }
{
    let v = &mut t.threads[(thread % 128) as usize];
    let p = v.process % 64;
    let q = &mut t.processes[p as usize];
    let done = exception::handle_exception(thread, kind, v, q, &mut t.jobs);
    go_on(t, p, done);
    done
}

// 15: the handler lets the exception object go.
pub fn close(t: &mut Tables, thread: u8) -> Result<Raised, Refusal>
    ensures { raised_in t.new result ≡ close_exception t.old thread }
{
    let v = &mut t.threads[(thread % 128) as usize];
    let p = v.process % 64;
    let q = &mut t.processes[p as usize];
    let done = exception::close(thread, v, q, &mut t.jobs);
    go_on(t, p, done);
    done
}

// -- What a handler sets and asks while it has an exception --------------------------------------

// 16: `ExceptionObject::set_state`.
pub fn set_state(t: &mut Tables, thread: u8, state: u32) -> Result<(), Refusal>
    ensures { answered t.new (answer_of result) ≡ set_state t.old thread state }
{
    exceptionate::set_state(thread, &mut t.threads[(thread % 128) as usize], state)
}

// 17: `ExceptionObject::set_strategy`.
pub fn set_strategy(t: &mut Tables, thread: u8, strategy: u32) -> Result<(), Refusal>
    ensures { answered t.new (answer_of result) ≡ set_strategy t.old thread strategy }
{
    exceptionate::set_strategy(thread, &mut t.threads[(thread % 128) as usize], strategy)
}

// 18: `ExceptionObject::get_process_handle`.
pub fn get_process_handle(t: &Tables, thread: u8) -> Result<(), Refusal>
    ensures { answered t.now (answer_of result) ≡ get_process_handle t.now thread }
{
    exceptionate::get_process_handle(thread, t.threads[(thread % 128) as usize])
}
