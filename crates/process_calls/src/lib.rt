// process_calls: the calls on a process, on the tables: 03 to 07, 11 and 1c. Each lends crate process the records that
// it names, in their places. What each comes to is in model/specs/JobCalls.antt.
#![tactic(auto, using(crate::proofs::Lending::lending), unfolding(process::specs::Process::made_in, process::specs::Process::settled, process::specs::Process::exit_settled, thread::specs::Pair::both_settled, records::specs::Tables::put_process, records::specs::Tables::put_fixed, records::specs::Tables::put_thread))]

ghost use Rattle.std.specs.Prelude.{◌≡◌, ◌%◌};
ghost use Rattle.error.specs.Numbers.{answer_of};
ghost use Rattle.model.specs.Job.{exit_listed, kill_job};
ghost use Rattle.model.specs.JobCalls.{create_process, start_process, exit_process_call, kill_process};
ghost use Rattle.model.specs.JobCalls.{set_critical_at_job, check_policy, process_information};
ghost use Rattle.reply.specs.Reply.{answered, informed};

use error::Refusal;
use records::tables::Tables;
use reply::Information;

// -- Making and starting -----------------------------------------------------------------------

// 03: `Process::create_with_ext`.
pub fn create_with_ext(t: &mut Tables, job: u8, new: u8) -> Result<(), Refusal>
    ensures { answered t.new (answer_of result) ≡ create_process t.old job new }
{
    let j = (job % 32) as usize;
    let p = (new % 64) as usize;
    let own = t.own[j];
    let inherited = t.inherited[j];
    process::create_with_ext(
        job,
        new,
        t.jobs[j],
        own,
        inherited,
        &mut t.processes[p],
        &mut t.fixed[p],
    )
}

// 04: `Process::start`.
pub fn start(t: &mut Tables, process: u8, thread: u8) -> Result<(), Refusal>
    ensures { answered t.new (answer_of result) ≡ start_process t.old process thread }
{
    let p = (process % 64) as usize;
    let i = (thread % 128) as usize;
    process::start(process, thread, &mut t.processes[p], &mut t.threads[i])
}

// -- Ending and binding ------------------------------------------------------------------------

// A process marked Exited: the threads that it lists are killed; it ends where it lists none. An end that no other
// record is changed by is written in place, since the cascade is over tables by value.
fn exits(t: &mut Tables, process: u8)
    ensures { t.new ≡ exit_listed kill_job t.old (process % 64) }
{
    let p = process % 64;
    let q = t.processes[p as usize];
    let j = t.jobs[(q.job % 32) as usize];
    let threads = t.threads;
    if cascade::ends_here(p, q, j, threads) {
        t.processes[p as usize] = q.ended();
    } else {
        *t = cascade::exit_listed(*t, p);
    }
}

// 05: `Process::exit`.
pub fn exit(t: &mut Tables, process: u8, code: i64) -> Result<(), Refusal>
    ensures { answered t.new (answer_of result) ≡ exit_process_call t.old process code }
{
    if process::exit(process, &mut t.processes[(process % 64) as usize], code)? {
        exits(t, process);
    }
    Ok(())
}

// 06: `Process::kill`.
pub fn kill(t: &mut Tables, process: u8) -> Result<(), Refusal>
    ensures { answered t.new (answer_of result) ≡ kill_process t.old process }
{
    if process::kill(process, &mut t.processes[(process % 64) as usize])? {
        exits(t, process);
    }
    Ok(())
}

// 07: `Process::set_critical_at_job`.
pub fn set_critical_at_job(t: &mut Tables, process: u8, job: u8, flag: u8) -> Result<(), Refusal>
    ensures { answered t.new (answer_of result) ≡ set_critical_at_job t.old process job flag }
{
    let p = (process % 64) as usize;
    let above = lists::at_or_above(t.jobs, job, t.processes[p].job);
    let j = t.jobs[(job % 32) as usize];
    process::set_critical_at_job(process, job, flag, &mut t.processes[p], j, above)
}

// -- Policy and information --------------------------------------------------------------------

// 11: `Process::check_policy`.
pub fn check_policy(t: &Tables, process: u8, condition: u8) -> Result<(), Refusal>
    ensures { answered t.now (answer_of result) ≡ check_policy t.now process condition }
{
    let p = (process % 64) as usize;
    process::check_policy(process, condition, t.processes[p], t.fixed[p])
}

// 1c: process information.
pub fn get_info(t: &Tables, process: u8) -> Result<Information, Refusal>
    ensures { informed t.now result ≡ process_information t.now process }
{
    process::get_info(process, t.processes[(process % 64) as usize])
}
