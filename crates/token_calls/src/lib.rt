// token_calls: suspending and resuming a task, and tokens, on the tables: 0d, 0e, 1e and 1f. Each lends the records
// that it names, in their places, to crate suspend_token, and changes each thread of a process where that says so.
// A kind and a name go apart, as there. What each comes to is in model/specs/ThreadCalls.antt.
#![tactic(auto)]

ghost use Rattle.std.specs.Prelude.{◌≡◌};
ghost use Rattle.error.specs.Numbers.{answer_of};
ghost use Rattle.thread_lists.specs.Each.{bars, any_bars};
ghost use Rattle.reply.specs.Reply.{answered};
ghost use Rattle.model.specs.SuspendToken.{PROCESS};
ghost use Rattle.model.specs.ThreadCalls.{create_token_call, drop_token_call, suspend_call, resume_call};
ghost use Rattle.suspend_token.specs.SuspendToken.{settled};

use error::Refusal;
use record_token::{Kind, Task};
use records::tables::Tables;
use thread_lists::{Each, each_thread, one_bars};

// -- The threads that a process lists ----------------------------------------------------------

// Whether one bars the change; of another task none is asked.
fn barred(t: &Tables, kind: u8, name: u8, change: Each) -> bool
    ensures { kind ≡ PROCESS → any_bars (bars change) name t.now.threads ≡ result }
{
    kind == Kind::Process.number() && one_bars(&t.threads, name, change)
}

// Each is changed, where the outcome says so.
#[tactic(auto, unfolding(suspend_token::specs::SuspendToken::settled))]
fn settle(
    t: &mut Tables,
    name: u8,
    change: Each,
    outcome: Result<bool, Refusal>,
) -> Result<(), Refusal>
    ensures { answered t.new (answer_of result) ≡ settled change t.old name outcome }
{
    if outcome? {
        each_thread(&mut t.threads, name, change);
    }
    Ok(())
}

// -- Suspending and resuming -------------------------------------------------------------------

// 1e: `Task::suspend`.
#[tactic(auto, using(crate::proofs::Places::places), unfolding(records::specs::Tables::put_thread))]
pub fn suspend(t: &mut Tables, kind: u8, name: u8) -> Result<(), Refusal>
    ensures { answered t.new (answer_of result) ≡ suspend_call t.old kind name }
{
    let bar = barred(t, kind, name, Each::Suspend);
    let q = t.processes[(name % 64) as usize];
    let j = t.jobs[(name % 32) as usize];
    let v = &mut t.threads[(name % 128) as usize];
    let outcome = suspend_token::suspend(kind, name, v, q, j, bar);
    settle(t, name, Each::Suspend, outcome)
}

// 1f: `Task::resume`. Apart from `suspend`: one body for both would be handed the change, its refusal and its call, for
// six lines.
#[tactic(auto, using(crate::proofs::Places::places), unfolding(records::specs::Tables::put_thread))]
pub fn resume(t: &mut Tables, kind: u8, name: u8) -> Result<(), Refusal>
    ensures { answered t.new (answer_of result) ≡ resume_call t.old kind name }
{
    let bar = barred(t, kind, name, Each::Resume);
    let q = t.processes[(name % 64) as usize];
    let j = t.jobs[(name % 32) as usize];
    let v = &mut t.threads[(name % 128) as usize];
    let outcome = suspend_token::resume(kind, name, v, q, j, bar);
    settle(t, name, Each::Resume, outcome)
}

// -- Tokens --------------------------------------------------------------------------------------

// 0d: `SuspendToken::create`.
#[tactic(auto, using(crate::proofs::Places::places), unfolding(records::specs::Tables::put_thread, records::specs::Tables::put_token))]
pub fn create(t: &mut Tables, new: u8, kind: u8, name: u8) -> Result<(), Refusal>
    ensures { answered t.new (answer_of result) ≡ create_token_call t.old new kind name }
{
    let bar = barred(t, kind, name, Each::Suspend);
    let q = t.processes[(name % 64) as usize];
    let j = t.jobs[(name % 32) as usize];
    let k = &mut t.tokens[(new % 64) as usize];
    let v = &mut t.threads[(name % 128) as usize];
    let outcome = suspend_token::create(new, kind, name, k, v, q, j, bar);
    settle(t, name, Each::Suspend, outcome)
}

// 0e: a token dropped. One that holds no task is refused, whatever is lent for it.
#[tactic(auto, using(crate::proofs::Places::places), unfolding(records::specs::Tables::put_thread, records::specs::Tables::put_token))]
pub fn drop(t: &mut Tables, token: u8) -> Result<(), Refusal>
    ensures { answered t.new (answer_of result) ≡ drop_token_call t.old token }
{
    let held = t.tokens[(token % 64) as usize].task.unwrap_or(Task {
        kind: Kind::Job,
        name: 0,
    });
    let bar = barred(t, held.kind.number(), held.name, Each::Resume);
    let k = &mut t.tokens[(token % 64) as usize];
    let v = &mut t.threads[(held.name % 128) as usize];
    let outcome = suspend_token::drop(token, k, v, bar);
    settle(t, held.name, Each::Resume, outcome)
}
