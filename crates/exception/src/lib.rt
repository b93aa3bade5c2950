// exception: raising an exception (14) and closing one (15), over the records that they name. One search finds the next
// handler for both. Each function is lent the records that it may change, and no struct of all three; its clause holds
// whatever the others are. Follows exception.rs. specs/Raise.antt says what is left and answered mean for the tables.
#![tactic(auto)]

ghost use Rattle.std.specs.Prelude.{◌≡◌, List, true, false};
ghost use Rattle.record_job.specs.declared.Job.{Job};
ghost use Rattle.record_process.specs.declared.Process.{Process};
ghost use Rattle.record_thread.specs.declared.Thread.{Thread};
ghost use Rattle.record_exception.specs.Channel.{is_bound, tried};
ghost use Rattle.model.specs.Exception.{route_of, is_no_type};
ghost use Rattle.model.specs.ExceptionCalls.{raise_exception, close_exception};
ghost use Rattle.model.specs.Job.{is_live_process};
ghost use Rattle.exception.specs.Seek.{level_in, passed_in, job_place, climbed, climbing, above_job, found};
ghost use Rattle.exception.specs.Seek.{from_second_chance, from_process, from_thread, from_debugger, alone};
ghost use Rattle.exception.specs.Seek.{first_found, after_debugger, next_found};
ghost use Rattle.exception.specs.Raise.{raised_answer, raised_owner, Raises, came, owner_in, waits_at, unheard};
ghost use Rattle.exception.specs.Raise.{delivers, exits_to, is_stopped, raises, is_over, closes};

use error::{Refusal, ZxError};
use model::Route;
use record_exception::{Exception, ExceptionType, Level, Place};
use record_job::Job;
use record_process::{Process, Status};
use record_thread::{Thread, ThreadState, Waiting};

// What an accepted 14 or 15 comes to.
#[derive(Clone, Copy)]
pub enum Raised {
    // A handler has it: its level, and whose level that is.
    At { level: u8, owner: u8 },
    // Closed, and over.
    Over,
    // Nobody took it.
    Next,
    // Nobody took it, and the process exits: it is marked. Here its threads are still to be killed, or it ends where it
    // lists none; an entry point has done so, and answers by number as for `Next`.
    Exits,
    // The thread is stopped.
    Stop,
}

impl Raised {
    // The number that the call is answered with.
    pub fn answer(self) -> i64
        ensures { result ≡ raised_answer self }
    {
        match self {
            Raised::At { level, .. } => i64::from(level),
            Raised::Over => 0,
            Raised::Next | Raised::Exits => ZxError::Next.number(),
            Raised::Stop => ZxError::Stop.number(),
        }
    }

    // The owner of the level that has the exception, or 0.
    pub fn owner(self) -> u8
        ensures { result ≡ raised_owner self }
    {
        match self {
            Raised::At { owner, .. } => owner,
            _ => 0,
        }
    }
}

// -- Routes -----------------------------------------------------------------------------------

// The route of an exception type: one of the eleven, or none.
#[tactic(auto, using(laws::proofs::Flow::branches), unfolding(model::specs::Exception::route_of, model::specs::Exception::is_hardware))]
fn route_of(kind: u16) -> Route
    ensures { result ≡ route_of kind }
{
    match kind {
        ExceptionType::GENERAL
        | ExceptionType::FATAL_PAGE_FAULT
        | ExceptionType::UNDEFINED_INSTRUCTION
        | ExceptionType::SOFTWARE_BREAKPOINT
        | ExceptionType::HARDWARE_BREAKPOINT
        | ExceptionType::UNALIGNED_ACCESS
        | ExceptionType::SYNTH
        | ExceptionType::POLICY_ERROR => Route::Ordinary,
        ExceptionType::PROCESS_STARTING => Route::JobDebuggers,
        ExceptionType::THREAD_STARTING => Route::DebuggerOnly,
        ExceptionType::THREAD_EXITING => Route::ToExiting,
        _ => Route::NoType,
    }
}

// Not one of the eleven types.
fn is_no_type(route: Route) -> bool
    ensures { result ≡ is_no_type route }
{
    matches!(route, Route::NoType)
}

// -- A level -----------------------------------------------------------------------------------

// Whether a level's handler takes the exception; else it is passed, and becomes unbound where it is hung up.
fn takes(level: &mut Level) -> bool
    ensures says { result ≡ is_bound level.old }
    ensures left { level.new ≡ tried level.old }
{
    let bound = level.is_bound();
    *level = level.tried();
    bound
}

// -- The jobs ---------------------------------------------------------------------------------

// Whether a job's level 5, or its level 4, takes it.
fn job_takes(debugger: bool, v: &mut Job) -> bool
    ensures says { result ≡ is_bound (level_in debugger v.old) }
    ensures left { v.new ≡ passed_in debugger v.old }
{
    if debugger {
        takes(&mut v.level5)
    } else {
        takes(&mut v.level4)
    }
}

fn job_place(debugger: bool, job: u8) -> Place
    ensures { result ≡ job_place debugger job }
{
    if debugger {
        return Place::OfJobDebugger(job);
    }
    Place::OfJob(job)
}

// Level 4, or level 5, from a job up to the root.
fn climb(jobs: &mut [Job; 32], debugger: bool, job: u8) -> Option<Place>
    ensures { climbed result jobs.new ≡ climbing 32 debugger jobs.old job }
{
    let mut at = job;
    for _step in 0..32usize {
        if 32 <= at {
            return None;
        }
        let k = at as usize;
        let mut v = jobs[k];
        if job_takes(debugger, &mut v) {
            return Some(job_place(debugger, at));
        }
        jobs[k] = v;
        let Some(p) = v.parent else {
            return None;
        };
        at = p;
    }
    None
}

// -- The search: who takes an exception -------------------------------------------------------

// The debugger again, if second chance is set now that level 3 is left.
#[tactic(auto, using(laws::proofs::Flow::branches), unfolding(crate::specs::Seek::from_second_chance))]
fn from_second_chance(q: &mut Process, jobs: &mut [Job; 32], second: bool) -> Option<Place>
    ensures { (v : Thread) → found result v q.new jobs.new ≡ from_second_chance v q.old jobs.old second }
{
    if second && takes(&mut q.level1) {
        return Some(Place::SecondChance);
    }
    climb(jobs, false, q.job)
}

// Levels 3, 2 and 1 have a function each: what differs is the place, and where it goes on.
#[tactic(auto, using(laws::proofs::Flow::branches), unfolding(crate::specs::Seek::from_process))]
fn from_process(q: &mut Process, jobs: &mut [Job; 32], second: bool) -> Option<Place>
    ensures { (v : Thread) → found result v q.new jobs.new ≡ from_process v q.old jobs.old second }
{
    if takes(&mut q.level3) {
        return Some(Place::OwnProcess);
    }
    from_second_chance(q, jobs, second)
}

#[tactic(auto, using(laws::proofs::Flow::branches), unfolding(crate::specs::Seek::from_thread))]
fn from_thread(v: &mut Thread, q: &mut Process, jobs: &mut [Job; 32], second: bool) -> Option<Place>
    ensures { found result v.new q.new jobs.new ≡ from_thread v.old q.old jobs.old second }
{
    if takes(&mut v.level2) {
        return Some(Place::OwnThread);
    }
    from_process(q, jobs, second)
}

#[tactic(auto, using(laws::proofs::Flow::branches), unfolding(crate::specs::Seek::from_debugger))]
fn from_debugger(
    v: &mut Thread,
    q: &mut Process,
    jobs: &mut [Job; 32],
    second: bool,
) -> Option<Place>
    ensures { found result v.new q.new jobs.new ≡ from_debugger v.old q.old jobs.old second }
{
    if takes(&mut q.level1) {
        return Some(Place::Debugger);
    }
    from_thread(v, q, jobs, second)
}

// Level 1 and no other.
#[tactic(auto, using(laws::proofs::Flow::branches), unfolding(crate::specs::Seek::alone))]
fn alone(place: Place, q: &mut Process) -> Option<Place>
    ensures { (v : Thread) → (jobs : List Job) → found result v q.new jobs ≡ alone place v q.old jobs }
{
    if takes(&mut q.level1) {
        return Some(place);
    }
    None
}

// The first handler of an exception just raised.
#[tactic(auto, using(laws::proofs::Flow::branches), unfolding(crate::specs::Seek::first_found))]
fn first_handler(
    route: Route,
    v: &mut Thread,
    q: &mut Process,
    jobs: &mut [Job; 32],
) -> Option<Place>
    ensures { found result v.new q.new jobs.new ≡ first_found route v.old q.old jobs.old }
{
    match route {
        Route::Ordinary => from_debugger(v, q, jobs, false),
        Route::JobDebuggers => climb(jobs, true, q.job),
        Route::DebuggerOnly => alone(Place::Debugger, q),
        Route::ToExiting => alone(Place::Exiting, q),
        Route::NoType => None,
    }
}

// ThreadStarting goes to level 1 only.
#[tactic(auto, using(laws::proofs::Flow::branches), unfolding(crate::specs::Seek::after_debugger))]
fn after_debugger(
    e: Exception,
    v: &mut Thread,
    q: &mut Process,
    jobs: &mut [Job; 32],
) -> Option<Place>
    ensures { found result v.new q.new jobs.new ≡ after_debugger e v.old q.old jobs.old }
{
    if e.kind == ExceptionType::THREAD_STARTING {
        return None;
    }
    from_thread(v, q, jobs, e.second)
}

// Level 4 of the jobs above one.
#[tactic(auto, using(laws::proofs::Flow::branches), unfolding(crate::specs::Seek::above_job, model::specs::Job::on_parent))]
fn above_job(jobs: &mut [Job; 32], job: u8) -> Option<Place>
    ensures { climbed result jobs.new ≡ above_job jobs.old job }
{
    let v = jobs.get(job as usize).copied().unwrap_or(Job::none());
    match v.parent {
        None => None,
        Some(i) => climb(jobs, false, i),
    }
}

// The handler after one that closed an exception without handling it.
#[tactic(auto, using(laws::proofs::Flow::branches), unfolding(crate::specs::Seek::next_found))]
fn next_handler(
    e: Exception,
    v: &mut Thread,
    q: &mut Process,
    jobs: &mut [Job; 32],
) -> Option<Place>
    ensures { found result v.new q.new jobs.new ≡ next_found e.place e v.old q.old jobs.old }
{
    match e.place {
        Place::Debugger => after_debugger(e, v, q, jobs),
        Place::OwnThread => from_process(q, jobs, e.second),
        Place::OwnProcess => from_second_chance(q, jobs, e.second),
        Place::SecondChance => climb(jobs, false, q.job),
        Place::OfJob(j) => above_job(jobs, j),
        Place::OfJobDebugger(_) | Place::Exiting => None,
    }
}

// -- Delivery ---------------------------------------------------------------------------------

// The owner of a place's level.
fn owner_in(v: &Thread, thread: u8, place: Place) -> u8
    ensures { result ≡ owner_in v.now thread place }
{
    match place {
        Place::Debugger | Place::OwnProcess | Place::SecondChance | Place::Exiting => v.process,
        Place::OwnThread => thread,
        Place::OfJob(j) | Place::OfJobDebugger(j) => j,
    }
}

// The thread waits at a place.
fn waits_at(place: Place, thread: u8, kind: u16, second: bool, v: &mut Thread) -> Raised
    ensures { (q : Process) → (jobs : List Job) →
        came result v.new q jobs ≡ waits_at (found (Some place) v.old q jobs) place thread kind second }
{
    let e = Exception::at(kind, place, second);
    *v = v.waits(ThreadState::BLOCKED_EXCEPTION, Waiting::InException(e));
    Raised::At {
        level: place.level(),
        owner: owner_in(v, thread, place),
    }
}

// Made, and not Exited: as `cascade` has it, since no crate of code below both knows the definition.
#[tactic(auto, using(laws::proofs::Flow::branches), unfolding(model::specs::Job::is_live_process))]
fn is_live(q: &Process) -> bool
    ensures { result ≡ is_live_process q.now }
{
    q.made && !q.status.is_exited()
}

// Nobody handles it: types without the bit 0x8000 also exit the process.
#[tactic(auto, using(laws::proofs::Flow::branches), unfolding(crate::specs::Raise::unheard))]
fn unheard(kind: u16, v: &mut Thread, q: &mut Process) -> Raised
    ensures { (jobs : List Job) → came result v.new q.new jobs ≡ unheard (found None v.old q.old jobs) kind }
{
    *v = v.end_wait();
    if ExceptionType::SYNTH <= kind || !is_live(q) {
        return Raised::Next;
    }
    q.status = Status::Exited(Process::KILL_CODE);
    Raised::Exits
}

#[tactic(auto, using(laws::proofs::Flow::branches), unfolding(crate::specs::Raise::delivers))]
fn deliver(
    at: Option<Place>,
    thread: u8,
    kind: u16,
    second: bool,
    v: &mut Thread,
    q: &mut Process,
) -> Raised
    ensures { (jobs : List Job) →
        came result v.new q.new jobs ≡ delivers at (found at v.old q.old jobs) thread kind second }
{
    match at {
        None => unheard(kind, v, q),
        Some(place) => waits_at(place, thread, kind, second, v),
    }
}

// ThreadExiting leaves the state; a killed thread sends it and is stopped.
#[tactic(auto, using(laws::proofs::Flow::branches), unfolding(crate::specs::Raise::exits_to))]
fn exits_to(at: Option<Place>, kind: u16, v: &mut Thread) -> Raised
    ensures { (q : Process) → (jobs : List Job) →
        came result v.new q jobs ≡ exits_to at (found at v.old q jobs) kind }
{
    let Some(place) = at else {
        return Raised::Next;
    };
    if v.killed {
        return Raised::Stop;
    }
    v.waiting = Waiting::InException(Exception::at(kind, place, false));
    Raised::At {
        level: 1,
        owner: v.process,
    }
}

// -- The calls --------------------------------------------------------------------------------

// While Dying, types but ThreadExiting deliver nothing.
#[tactic(auto, using(laws::proofs::Flow::branches), unfolding(crate::specs::Raise::is_stopped))]
fn is_stopped(v: &Thread, kind: u16) -> bool
    ensures { result ≡ is_stopped v.now kind }
{
    kind != ExceptionType::THREAD_EXITING && v.state == ThreadState::DYING
}

#[tactic(auto, using(laws::proofs::Flow::branches), unfolding(crate::specs::Raise::raises))]
fn raise(
    thread: u8,
    kind: u16,
    route: Route,
    v: &mut Thread,
    q: &mut Process,
    jobs: &mut [Job; 32],
) -> Raised
    ensures { came result v.new q.new jobs.new ≡ raises thread kind route v.old q.old jobs.old }
{
    if is_stopped(v, kind) {
        return Raised::Stop;
    }
    let at = first_handler(route, v, q, jobs);
    if kind == ExceptionType::THREAD_EXITING {
        return exits_to(at, kind, v);
    }
    deliver(at, thread, kind, false, v, q)
}

// 14: `CurrentThread::handle_exception`; q is the process of the thread, by its place in the table. A name past the
// table stands for a process never made.
#[tactic(auto, using(crate::proofs::Raising::raising), unfolding(model::specs::ExceptionCalls::raise_exception))]
pub fn handle_exception(
    thread: u8,
    kind: u16,
    v: &mut Thread,
    q: &mut Process,
    jobs: &mut [Job; 32],
) -> Result<Raised, Refusal>
    ensures { Raises (λ t. raise_exception t thread kind) thread v.old q.old jobs.old v.new q.new jobs.new result }
{
    let route = route_of(kind);
    if is_no_type(route) {
        return Err(Refusal::BadField);
    }
    if 128 <= thread {
        return Err(Refusal::PastTable);
    }
    let Some(w) = v.found() else {
        return Err(Refusal::NotMade);
    };
    if !w.is_free() {
        return Err(Refusal::OutOfTurn);
    }
    if 64 <= v.process {
        return Ok(raise(thread, kind, route, v, &mut Process::none(), jobs));
    }
    Ok(raise(thread, kind, route, v, q, jobs))
}

// ProcessStarting and ThreadExiting are over at their first closing.
#[tactic(auto, using(laws::proofs::Flow::branches), unfolding(crate::specs::Raise::is_over))]
fn is_over(e: Exception) -> bool
    ensures { result ≡ is_over e }
{
    e.handled || matches!(e.place, Place::OfJobDebugger(_) | Place::Exiting)
}

#[tactic(auto, using(laws::proofs::Flow::branches), unfolding(crate::specs::Raise::closes))]
fn close_held(
    thread: u8,
    e: Exception,
    v: &mut Thread,
    q: &mut Process,
    jobs: &mut [Job; 32],
) -> Raised
    ensures { came result v.new q.new jobs.new ≡ closes thread e v.old q.old jobs.old }
{
    if is_over(e) {
        *v = v.end_wait();
        return Raised::Over;
    }
    let at = next_handler(e, v, q, jobs);
    deliver(at, thread, e.kind, e.second, v, q)
}

// 15: the handler lets the exception object go.
#[tactic(auto, using(crate::proofs::Raising::raising), unfolding(model::specs::ExceptionCalls::close_exception))]
pub fn close(
    thread: u8,
    v: &mut Thread,
    q: &mut Process,
    jobs: &mut [Job; 32],
) -> Result<Raised, Refusal>
    ensures { Raises (λ t. close_exception t thread) thread v.old q.old jobs.old v.new q.new jobs.new result }
{
    if 128 <= thread {
        return Err(Refusal::PastTable);
    }
    let Some(w) = v.found() else {
        return Err(Refusal::NotMade);
    };
    let Some(e) = w.exception() else {
        return Err(Refusal::OutOfTurn);
    };
    if 64 <= v.process {
        return Ok(close_held(thread, e, v, &mut Process::none(), jobs));
    }
    Ok(close_held(thread, e, v, q, jobs))
}
