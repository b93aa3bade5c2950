// deepest: the deepest cascade, for its stack. Writes how many jobs it killed.
#![tactic(auto)]

use record_exception::{Exception, ExceptionType, Place};
use record_job::Job;
use record_process::{Process, Status};
use record_thread::{Thread, ThreadState, Waiting};
use records::tables::{Tables, fresh_tables};
use std::io;

// A running process of a job, critical to a job.
fn critical(job: u8, bound: u8) -> Process {
    Process::new(job)
        .with_status(Status::Running)
        .bind_to(bound, false)
}

// A thread of a process that waits in an exception at its own level.
fn waiting(process: u8) -> Thread {
    let e = Exception {
        kind: ExceptionType::GENERAL,
        place: Place::OwnThread,
        handled: false,
        second: false,
    };
    Thread::new(process)
        .start()
        .waits(ThreadState::BLOCKED_EXCEPTION, Waiting::InException(e))
}

// 32 jobs in a chain. Process k of job k is critical to the job above, process 32 + k lists thread k, which waits.
// Process 0, with thread 0, is critical to the lowest job, its own, and process 32 to the root, its own.
fn chain() -> Tables {
    let mut t = fresh_tables();
    for k in 1..32u8 {
        let above = k - 1;
        t = t.with_job(k, Job::new(above));
        t = t.with_process(k, critical(k, above));
        t = t.with_process(32 + k, Process::new(k));
        t = t.with_thread(k, waiting(32 + k));
    }
    t = t.with_process(0, critical(31, 31));
    t = t.with_thread(0, Thread::new(0));
    t.with_process(32, critical(0, 0))
}

// Process 0 exits, and ends when its thread finishes. Then each end waits for the kill of a job, which waits for the
// exit of a process, which waits for its end, up to the root.
fn main(rt: HostRuntime) -> io::Result<()> {
    let mut t = cascade::exit_process(chain(), 0, 7);
    t = t.with_thread(0, t.threads[0].finish());
    t = cascade::remove_thread(t, 0);
    let killed = t.jobs.iter().filter(|v| v.killed).count();
    print!(rt; "{killed}")
}
