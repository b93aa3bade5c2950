// thread_calls: the calls on a thread, on the tables: 08 to 0c, 19, 1a and 1d. Each lends crate thread the records that
// it names, in their places. What each comes to is in model/specs/ThreadCalls.antt.
#![tactic(auto, using(crate::proofs::Lending::lending), unfolding(thread::specs::Move::settled, thread::specs::Move::ended, records::specs::Tables::put_thread))]

ghost use Rattle.std.specs.Prelude.{◌≡◌};
ghost use Rattle.error.specs.Numbers.{answer_of};
ghost use Rattle.model.specs.ThreadCalls.{create_thread, start_thread, kill_thread, exit_thread, finish_thread_call};
ghost use Rattle.model.specs.ThreadCalls.{begin_wait, poll_wait, thread_information};
ghost use Rattle.reply.specs.Reply.{answered, informed};

use error::Refusal;
use records::tables::Tables;
use reply::Information;

// -- Making, running and ending ----------------------------------------------------------------

// 08: `Thread::create_with_ext`.
pub fn create_with_ext(t: &mut Tables, process: u8, new: u8) -> Result<(), Refusal>
    ensures { answered t.new (answer_of result) ≡ create_thread t.old process new }
{
    let q = t.processes[(process % 64) as usize];
    thread::create_with_ext(process, new, q, &mut t.threads[(new % 128) as usize])
}

// 09: `Thread::start`.
pub fn start(t: &mut Tables, thread: u8) -> Result<(), Refusal>
    ensures { answered t.new (answer_of result) ≡ start_thread t.old thread }
{
    thread::start(thread, &mut t.threads[(thread % 128) as usize])
}

// 0a: `Thread::kill`.
pub fn kill(t: &mut Tables, thread: u8) -> Result<(), Refusal>
    ensures { answered t.new (answer_of result) ≡ kill_thread t.old thread }
{
    thread::kill(thread, &mut t.threads[(thread % 128) as usize])
}

// 0b: `CurrentThread::exit`.
pub fn exit(t: &mut Tables, thread: u8) -> Result<(), Refusal>
    ensures { answered t.new (answer_of result) ≡ exit_thread t.old thread }
{
    thread::exit(thread, &mut t.threads[(thread % 128) as usize])
}

// 0c: `CurrentThread` dropped. Where it is accepted, the process is left with one thread less.
pub fn finish(t: &mut Tables, thread: u8) -> Result<(), Refusal>
    ensures { answered t.new (answer_of result) ≡ finish_thread_call t.old thread }
{
    let v = &mut t.threads[(thread % 128) as usize];
    thread::finish(thread, v)?;
    let process = v.process;
    *t = cascade::remove_thread(*t, process);
    Ok(())
}

// -- Plain waits and information ---------------------------------------------------------------

// 19: begins a plain wait.
pub fn begin_wait(t: &mut Tables, thread: u8, state: u16) -> Result<(), Refusal>
    ensures { answered t.new (answer_of result) ≡ begin_wait t.old thread state }
{
    thread::begin_wait(thread, &mut t.threads[(thread % 128) as usize], state)
}

// 1a: polls a plain wait.
pub fn poll_wait(t: &mut Tables, thread: u8, ready: u8) -> Result<(), Refusal>
    ensures { answered t.new (answer_of result) ≡ poll_wait t.old thread ready }
{
    thread::poll_wait(thread, &mut t.threads[(thread % 128) as usize], ready)
}

// 1d: thread information.
pub fn get_thread_info(t: &Tables, thread: u8) -> Result<Information, Refusal>
    ensures { informed t.now result ≡ thread_information t.now thread }
{
    thread::get_thread_info(thread, t.threads[(thread % 128) as usize])
}
