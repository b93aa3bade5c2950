// refusals: each entry point turned back at each row of document 01's table that it has, in its order. Writes the
// command's number, in decimal, and the answer. Then policy lists that are lent, in `slices`.
#![tactic(auto)]

mod slices;

use error::Refusal;
use exception_calls::{create_channel, get_process_handle, handle_exception, hang_up};
use job_policy::{BasicPolicy, TimerSlackPolicy};
use process_calls::set_critical_at_job;
use record_thread::Thread;
use records::tables::{Tables, fresh_tables};
use std::io;

// Writes a line for each answer of a command.
fn show(rt: &impl Print, command: u8, outcomes: &[Result<(), Refusal>]) -> io::Result<()> {
    for outcome in outcomes {
        let answer = error::answer_of(*outcome);
        println!(rt; "{command} {answer}")?;
    }
    Ok(())
}

// The outcome alone of a call that tells something.
fn done<T: Drop>(outcome: Result<T, Refusal>) -> Result<(), Refusal> {
    outcome.map(|_| ())
}

// A call that prepares the tables is to be accepted.
fn prepared(outcome: Result<(), Refusal>) -> io::Result<()> {
    outcome.map_err(|_| io::ErrorKind::InvalidInput.into())
}

fn pair(condition: u8, action: u8) -> BasicPolicy {
    BasicPolicy { condition, action }
}

// Two entries, the first with condition 4 and Deny, by 0f.
fn policy(t: &mut Tables, job: u8, option: u8, condition: u8, action: u8) -> Result<(), Refusal> {
    let none = pair(0, 0);
    let mut list = [none; 15];
    list[0] = pair(4, 1);
    list[1] = pair(condition, action);
    job_calls::set_policy(t, job, option, 2, list)
}

fn slack(t: &mut Tables, job: u8, amount: i64, mode: u8) -> Result<(), Refusal> {
    let policy = TimerSlackPolicy {
        slack: amount,
        mode,
    };
    job_calls::set_policy_timer_slack(t, job, policy)
}

// A suspended thread of process 0, with its count.
fn suspended(count: u16) -> Thread {
    Thread {
        suspends: count,
        ..Thread::new(0)
    }
}

// Job 1 inherits Deny for condition 4 and Kill for 6, and has job 3 and processes 0 and 2. Job 2 is killed. Process 1
// has ended. Thread 0 is not started, thread 1 runs, thread 2 is of process 2, thread 3 is full, thread 4 waits.
fn tasks() -> io::Result<Tables> {
    let mut t = fresh_tables();
    prepared(policy(&mut t, 0, 0, 6, 4))?;
    prepared(job_calls::create_child(&mut t, 0, 1))?;
    prepared(job_calls::create_child(&mut t, 0, 2))?;
    prepared(job_calls::kill(&mut t, 2))?;
    prepared(job_calls::create_child(&mut t, 1, 3))?;
    prepared(process_calls::create_with_ext(&mut t, 1, 0))?;
    prepared(process_calls::create_with_ext(&mut t, 1, 1))?;
    prepared(process_calls::create_with_ext(&mut t, 1, 2))?;
    prepared(process_calls::exit(&mut t, 1, 7))?;
    prepared(set_critical_at_job(&mut t, 2, 0, 0))?;
    prepared(thread_calls::create_with_ext(&mut t, 0, 0))?;
    prepared(thread_calls::create_with_ext(&mut t, 0, 1))?;
    prepared(thread_calls::create_with_ext(&mut t, 2, 2))?;
    t = t.with_thread(3, suspended(65535));
    prepared(thread_calls::create_with_ext(&mut t, 0, 4))?;
    prepared(thread_calls::start(&mut t, 1))?;
    prepared(thread_calls::start(&mut t, 4))?;
    prepared(thread_calls::begin_wait(&mut t, 4, 3))?;
    Ok(t)
}

fn jobs(rt: &impl Print, t: &mut Tables) -> io::Result<()> {
    let outcomes = [
        job_calls::create_child(t, 32, 9),
        job_calls::create_child(t, 0, 32),
        job_calls::create_child(t, 9, 3),
        job_calls::create_child(t, 2, 3),
        job_calls::create_child(t, 2, 9),
    ];
    show(rt, 0x01, &outcomes)?;
    let outcomes = [job_calls::kill(t, 32), job_calls::kill(t, 9)];
    show(rt, 0x02, &outcomes)?;
    let outcomes = [
        slack(t, 32, -1, 3),
        slack(t, 32, -1, 0),
        slack(t, 9, -1, 0),
        slack(t, 1, -1, 0),
        slack(t, 3, -1, 0),
    ];
    show(rt, 0x10, &outcomes)?;
    let outcomes = [
        done(job_calls::get_info(t, 32)),
        done(job_calls::get_info(t, 9)),
    ];
    show(rt, 0x1b, &outcomes)
}

fn policies(rt: &impl Print, t: &mut Tables) -> io::Result<()> {
    let outcomes = [
        policy(t, 32, 2, 3, 1),
        policy(t, 32, 0, 15, 1),
        policy(t, 32, 0, 3, 5),
        policy(t, 32, 0, 3, 1),
        policy(t, 9, 0, 3, 1),
        policy(t, 1, 0, 3, 1),
        policy(t, 3, 0, 6, 1),
    ];
    show(rt, 0x0f, &outcomes)?;
    let outcomes = [
        process_calls::check_policy(t, 64, 15),
        process_calls::check_policy(t, 64, 4),
        process_calls::check_policy(t, 9, 4),
        process_calls::check_policy(t, 0, 6),
        process_calls::check_policy(t, 0, 4),
    ];
    show(rt, 0x11, &outcomes)
}

fn processes(rt: &impl Print, t: &mut Tables) -> io::Result<()> {
    let outcomes = [
        process_calls::create_with_ext(t, 32, 9),
        process_calls::create_with_ext(t, 0, 64),
        process_calls::create_with_ext(t, 9, 0),
        process_calls::create_with_ext(t, 2, 0),
        process_calls::create_with_ext(t, 2, 9),
    ];
    show(rt, 0x03, &outcomes)?;
    let outcomes = [process_calls::exit(t, 64, 7), process_calls::exit(t, 9, 7)];
    show(rt, 0x05, &outcomes)?;
    let outcomes = [process_calls::kill(t, 64), process_calls::kill(t, 9)];
    show(rt, 0x06, &outcomes)?;
    let outcomes = [
        set_critical_at_job(t, 64, 32, 2),
        set_critical_at_job(t, 64, 0, 1),
        set_critical_at_job(t, 9, 32, 1),
        set_critical_at_job(t, 9, 0, 1),
        set_critical_at_job(t, 2, 9, 1),
        set_critical_at_job(t, 2, 3, 1),
        set_critical_at_job(t, 0, 3, 1),
    ];
    show(rt, 0x07, &outcomes)?;
    let outcomes = [
        done(process_calls::get_info(t, 64)),
        done(process_calls::get_info(t, 9)),
    ];
    show(rt, 0x1c, &outcomes)
}

// Process 0 runs once thread 1 was started with it.
fn starts(rt: &impl Print, t: &mut Tables) -> io::Result<()> {
    let mut another = *t;
    prepared(process_calls::start(&mut another, 0, 0))?;
    prepared(thread_calls::create_with_ext(&mut another, 0, 9))?;
    let mut finished = *t;
    prepared(thread_calls::finish(&mut finished, 1))?;
    let outcomes = [
        process_calls::start(t, 64, 0),
        process_calls::start(t, 0, 128),
        process_calls::start(t, 9, 9),
        process_calls::start(t, 0, 9),
        process_calls::start(t, 2, 1),
        process_calls::start(t, 2, 0),
        process_calls::start(&mut another, 0, 9),
    ];
    show(rt, 0x04, &outcomes)?;
    let outcomes = [
        thread_calls::finish(t, 128),
        thread_calls::finish(t, 9),
        thread_calls::finish(t, 0),
        thread_calls::finish(t, 4),
        thread_calls::finish(&mut finished, 1),
    ];
    show(rt, 0x0c, &outcomes)
}

fn threads(rt: &impl Print, t: &mut Tables) -> io::Result<()> {
    let outcomes = [
        thread_calls::create_with_ext(t, 64, 9),
        thread_calls::create_with_ext(t, 0, 128),
        thread_calls::create_with_ext(t, 9, 0),
        thread_calls::create_with_ext(t, 1, 0),
        thread_calls::create_with_ext(t, 1, 9),
    ];
    show(rt, 0x08, &outcomes)?;
    let outcomes = [
        thread_calls::start(t, 128),
        thread_calls::start(t, 9),
        thread_calls::start(t, 1),
    ];
    show(rt, 0x09, &outcomes)?;
    let outcomes = [thread_calls::kill(t, 128), thread_calls::kill(t, 9)];
    show(rt, 0x0a, &outcomes)?;
    let outcomes = [
        thread_calls::exit(t, 128),
        thread_calls::exit(t, 9),
        thread_calls::exit(t, 0),
    ];
    show(rt, 0x0b, &outcomes)?;
    let outcomes = [
        done(thread_calls::get_thread_info(t, 128)),
        done(thread_calls::get_thread_info(t, 9)),
    ];
    show(rt, 0x1d, &outcomes)
}

fn waits(rt: &impl Print, t: &mut Tables) -> io::Result<()> {
    let outcomes = [
        thread_calls::begin_wait(t, 128, 4),
        thread_calls::begin_wait(t, 128, 3),
        thread_calls::begin_wait(t, 9, 3),
        thread_calls::begin_wait(t, 0, 3),
        thread_calls::begin_wait(t, 4, 3),
    ];
    show(rt, 0x19, &outcomes)?;
    let outcomes = [
        thread_calls::poll_wait(t, 128, 8),
        thread_calls::poll_wait(t, 128, 7),
        thread_calls::poll_wait(t, 9, 7),
        thread_calls::poll_wait(t, 1, 7),
    ];
    show(rt, 0x1a, &outcomes)
}

// Token 0 is on process 0, which has a thread made after it.
fn suspends(rt: &impl Print, t: &mut Tables) -> io::Result<()> {
    let mut held = *t;
    prepared(token_calls::create(&mut held, 0, 1, 2))?;
    let mut later = held;
    prepared(thread_calls::create_with_ext(&mut later, 2, 9))?;
    let outcomes = [
        token_calls::create(t, 64, 3, 128),
        token_calls::create(t, 64, 2, 9),
        token_calls::create(t, 0, 2, 128),
        token_calls::create(t, 0, 2, 9),
        token_calls::create(t, 0, 0, 1),
        token_calls::create(t, 0, 2, 3),
        token_calls::create(&mut held, 0, 0, 1),
    ];
    show(rt, 0x0d, &outcomes)?;
    let outcomes = [
        token_calls::drop(&mut later, 64),
        token_calls::drop(&mut later, 9),
        token_calls::drop(&mut later, 0),
    ];
    show(rt, 0x0e, &outcomes)?;
    let outcomes = [
        token_calls::suspend(t, 3, 128),
        token_calls::suspend(t, 2, 128),
        token_calls::suspend(t, 2, 9),
        token_calls::suspend(t, 0, 1),
        token_calls::suspend(t, 2, 3),
    ];
    show(rt, 0x1e, &outcomes)?;
    let outcomes = [
        token_calls::resume(t, 3, 128),
        token_calls::resume(t, 2, 128),
        token_calls::resume(t, 2, 9),
        token_calls::resume(t, 0, 1),
        token_calls::resume(t, 2, 0),
    ];
    show(rt, 0x1f, &outcomes)
}

// The levels of process 1 are shut; level 4 of job 1 is bound.
fn levels(rt: &impl Print, t: &mut Tables) -> io::Result<()> {
    let mut bound = *t;
    prepared(create_channel(&mut bound, 4, 1))?;
    let outcomes = [
        create_channel(&mut bound, 6, 128),
        create_channel(&mut bound, 0, 128),
        create_channel(&mut bound, 2, 128),
        create_channel(&mut bound, 2, 9),
        create_channel(&mut bound, 3, 1),
        create_channel(&mut bound, 4, 1),
    ];
    show(rt, 0x12, &outcomes)?;
    let outcomes = [
        hang_up(&mut bound, 6, 128),
        hang_up(&mut bound, 4, 32),
        hang_up(&mut bound, 4, 9),
        hang_up(&mut bound, 5, 1),
    ];
    show(rt, 0x13, &outcomes)?;
    let outcomes = [
        done(handle_exception(t, 128, 0x8408)),
        done(handle_exception(t, 128, 8)),
        done(handle_exception(t, 9, 8)),
        done(handle_exception(t, 0, 8)),
        done(handle_exception(t, 4, 8)),
    ];
    show(rt, 0x14, &outcomes)?;
    let outcomes = [
        done(exception_calls::close(t, 128)),
        done(exception_calls::close(t, 9)),
        done(exception_calls::close(t, 1)),
    ];
    show(rt, 0x15, &outcomes)
}

// Thread 1 waits in an exception at its own level.
fn handlers(rt: &impl Print, t: &mut Tables) -> io::Result<()> {
    let mut raised = *t;
    prepared(create_channel(&mut raised, 2, 1))?;
    prepared(done(handle_exception(&mut raised, 1, 8)))?;
    let outcomes = [
        exception_calls::set_state(&mut raised, 128, 2),
        exception_calls::set_state(&mut raised, 9, 2),
        exception_calls::set_state(&mut raised, 4, 2),
        exception_calls::set_state(&mut raised, 1, 2),
    ];
    show(rt, 0x16, &outcomes)?;
    let outcomes = [
        exception_calls::set_strategy(&mut raised, 128, 2),
        exception_calls::set_strategy(&mut raised, 9, 2),
        exception_calls::set_strategy(&mut raised, 4, 2),
        exception_calls::set_strategy(&mut raised, 1, 2),
        exception_calls::set_strategy(&mut raised, 1, 1),
    ];
    show(rt, 0x17, &outcomes)?;
    let outcomes = [
        get_process_handle(&raised, 128),
        get_process_handle(&raised, 9),
        get_process_handle(&raised, 4),
        get_process_handle(&raised, 1),
    ];
    show(rt, 0x18, &outcomes)
}

fn main(rt: HostRuntime) -> io::Result<()> {
    let mut t = tasks()?;
    jobs(&rt, &mut t)?;
    policies(&rt, &mut t)?;
    processes(&rt, &mut t)?;
    starts(&rt, &mut t)?;
    threads(&rt, &mut t)?;
    waits(&rt, &mut t)?;
    suspends(&rt, &mut t)?;
    levels(&rt, &mut t)?;
    handlers(&rt, &mut t)?;
    slices::all(&rt)
}
