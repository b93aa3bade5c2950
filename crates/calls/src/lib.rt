// calls: performs the call that a command's bytes stand for. specs/Calls.antt says which bytes stand for which call.
#![tactic(auto)]

ghost use Rattle.std.specs.Prelude.{◌≡◌};
ghost use Rattle.commands.specs.Commands.{byte};
ghost use Rattle.exception.specs.Raise.{raised_in};
ghost use Rattle.model.specs.Step.{cmd10};
ghost use Rattle.reply.specs.Reply.{showing, Shows};
ghost use Rattle.calls.specs.Calls.{called, call_at, perform, policy_call};

use commands::{byte_at, half_at, value_at, word_at};
use error::Refusal;
use exception::Raised;
use job_policy::TimerSlackPolicy;
use records::tables::Tables;
use reply::{Fields, Shown};

// -- What is shown of a call, by its outcome -----------------------------------------------------

// 14 and 15: the answer, and the owner of the level that has the exception.
fn raised(outcome: Result<Raised, Refusal>) -> Shown
    ensures { Shows (λ t. raised_in t outcome) result }
{
    match outcome {
        Ok(to) => Shown::with_fields(to.answer(), Fields::OwnerField(to.owner())),
        Err(refusal) => Shown::answered(refusal.number()),
    }
}

// -- The calls ---------------------------------------------------------------------------------

// 0f: a count above 4 is no command, and changes nothing.
fn set_policy(t: &mut Tables, job: u8, option: u8, s: &[u8]) -> Shown
    ensures { showing t.new result ≡ perform t.old (policy_call job option (byte s.now 3) s.now) }
{
    let count = byte_at(s, 3);
    if 4 < count {
        return Shown::answered(0);
    }
    let policies = commands::fifteen_at(s);
    Shown::settled(job_calls::set_policy(t, job, option, count, policies))
}

// 10: the amount and the mode are one policy.
fn set_slack(t: &mut Tables, job: u8, slack: i64, mode: u8) -> Shown
    ensures { showing t.new result ≡ perform t.old (called (cmd10 job slack mode)) }
{
    let policy = TimerSlackPolicy { slack, mode };
    Shown::settled(job_calls::set_policy_timer_slack(t, job, policy))
}

// Performs the call of a whole command. Other bytes are no call, and change nothing.
pub fn perform(t: &mut Tables, s: &[u8]) -> Shown
    ensures { showing t.new result ≡ perform t.old (call_at s.now) }
{
    let a = byte_at(s, 1);
    let b = byte_at(s, 2);
    match byte_at(s, 0) {
        0x01 => Shown::settled(job_calls::create_child(t, a, b)),
        0x02 => Shown::settled(job_calls::kill(t, a)),
        0x03 => Shown::settled(process_calls::create_with_ext(t, a, b)),
        0x04 => Shown::settled(process_calls::start(t, a, b)),
        0x05 => Shown::settled(process_calls::exit(t, a, value_at(s))),
        0x06 => Shown::settled(process_calls::kill(t, a)),
        0x07 => Shown::settled(process_calls::set_critical_at_job(t, a, b, byte_at(s, 3))),
        0x08 => Shown::settled(thread_calls::create_with_ext(t, a, b)),
        0x09 => Shown::settled(thread_calls::start(t, a)),
        0x0a => Shown::settled(thread_calls::kill(t, a)),
        0x0b => Shown::settled(thread_calls::exit(t, a)),
        0x0c => Shown::settled(thread_calls::finish(t, a)),
        0x0d => Shown::settled(token_calls::create(t, a, b, byte_at(s, 3))),
        0x0e => Shown::settled(token_calls::drop(t, a)),
        0x0f => set_policy(t, a, b, s),
        0x10 => set_slack(t, a, value_at(s), byte_at(s, 10)),
        0x11 => Shown::settled(process_calls::check_policy(t, a, b)),
        0x12 => Shown::settled(exception_calls::create_channel(t, a, b)),
        0x13 => Shown::settled(exception_calls::hang_up(t, a, b)),
        0x14 => raised(exception_calls::handle_exception(t, a, half_at(s))),
        0x15 => raised(exception_calls::close(t, a)),
        0x16 => Shown::settled(exception_calls::set_state(t, a, word_at(s))),
        0x17 => Shown::settled(exception_calls::set_strategy(t, a, word_at(s))),
        0x18 => Shown::settled(exception_calls::get_process_handle(t, a)),
        0x19 => Shown::settled(thread_calls::begin_wait(t, a, half_at(s))),
        0x1a => Shown::settled(thread_calls::poll_wait(t, a, b)),
        0x1b => Shown::informed(job_calls::get_info(t, a)),
        0x1c => Shown::informed(process_calls::get_info(t, a)),
        0x1d => Shown::informed(thread_calls::get_thread_info(t, a)),
        0x1e => Shown::settled(token_calls::suspend(t, a, b)),
        0x1f => Shown::settled(token_calls::resume(t, a, b)),
        _ => Shown::answered(0),
    }
}
