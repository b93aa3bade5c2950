// job_calls: the calls on a job, on the tables: 01, 02, 0f, 10 and 1b. Each lends crate job the records that it names
// in their places, and answers what that does. What each comes to is in model/specs/JobCalls.antt.
#![tactic(auto, using(crate::proofs::Placed::placed), unfolding(job::specs::Job::made_in, job::specs::Job::killed_in, job::specs::Job::set_in, job::specs::Job::settled, records::specs::Tables::put_job, records::specs::Tables::put_own, records::specs::Tables::put_inherited))]

ghost use Rattle.std.specs.Prelude.{take, ◌≡◌};
ghost use Rattle.model.specs.Job.{kill_job};
ghost use Rattle.model.specs.JobCalls.{create_child, kill_job_call, set_policy_basic, set_policy_timer_slack};
ghost use Rattle.model.specs.JobCalls.{job_information};
ghost use Rattle.error.specs.Numbers.{answer_of};
ghost use Rattle.reply.specs.Reply.{answered, informed};

use error::Refusal;
use job_policy::{BasicPolicy, TimerSlackPolicy};
use records::tables::Tables;
use reply::Information;

// -- Making and killing ------------------------------------------------------------------------

// 01: `Job::create_child`.
pub fn create_child(t: &mut Tables, job: u8, new: u8) -> Result<(), Refusal>
    ensures { answered t.new (answer_of result) ≡ create_child t.old job new }
{
    let j = t.jobs[(job % 32) as usize];
    let own = t.own[(job % 32) as usize];
    let inherited = t.inherited[(job % 32) as usize];
    let i = (new % 32) as usize;
    let w = &mut t.jobs[i];
    let held = &mut t.inherited[i];
    job::create_child(job, new, j, own, inherited, w, held)
}

// A kill that reaches further than its job. A function of its own: room for the tables is cleared where it is called.
fn kills(t: &mut Tables, job: u8)
    ensures { t.new ≡ kill_job t.old job }
{
    *t = cascade::kill_job(*t, job);
}

// 02: `Job::kill`.
pub fn kill(t: &mut Tables, job: u8) -> Result<(), Refusal>
    ensures { answered t.new (answer_of result) ≡ kill_job_call t.old job }
{
    let alone = lists::kills_alone(t.jobs, t.processes, job);
    if job::kill(job, &mut t.jobs[(job % 32) as usize], alone)? {
        kills(t, job);
    }
    Ok(())
}

// -- Settings and information ------------------------------------------------------------------

// 0f: `Job::set_policy_basic` with up to fifteen entries by value; a count above 15 takes all fifteen.
pub fn set_policy(
    t: &mut Tables,
    job: u8,
    option: u8,
    count: u8,
    policies: [BasicPolicy; 15],
) -> Result<(), Refusal>
    ensures { answered t.new (answer_of result) ≡ set_policy_basic t.old job option (take count policies) }
{
    let i = (job % 32) as usize;
    let j = t.jobs[i];
    let inherited = t.inherited[i];
    let empty = lists::job_empty(t.jobs, t.processes, job);
    let own = &mut t.own[i];
    job::set_policy(job, option, count, policies, j, own, inherited, empty)
}

// 10: `Job::set_policy_timer_slack`.
pub fn set_policy_timer_slack(
    t: &mut Tables,
    job: u8,
    policy: TimerSlackPolicy,
) -> Result<(), Refusal>
    ensures { answered t.new (answer_of result) ≡ set_policy_timer_slack t.old job policy }
{
    let empty = lists::job_empty(t.jobs, t.processes, job);
    job::set_policy_timer_slack(job, policy, &mut t.jobs[(job % 32) as usize], empty)
}

// 1b: job information.
pub fn get_info(t: &Tables, job: u8) -> Result<Information, Refusal>
    ensures { informed t.now result ≡ job_information t.now job }
{
    let i = (job % 32) as usize;
    job::get_info(job, t.jobs[i], t.own[i], t.inherited[i])
}
