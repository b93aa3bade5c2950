// job: the calls on a job, over the records that they name. Follows job.rs. Each call stands here once: its refusals in
// document 01's order, then its effect. A job's two policies go apart, since a call is lent the one that it may change.
// specs/Job.antt says what a call leaves means for the tables.
#![tactic(auto)]

ghost use Rattle.std.specs.Prelude.{take, ◌≡◌};
ghost use Rattle.model.specs.JobCalls.{create_child, kill_job_call, set_policy_timer_slack};
ghost use Rattle.model.specs.JobCalls.{job_information};
ghost use Rattle.job.specs.Job.{Makes, Kills, Sets, SetsUnder, Settles, fields_of, Shows};
ghost use Rattle.job.specs.Work.{finish_work};

use error::{Refusal, ZxError};
use job_policy::{BasicPolicy, JobPolicy, TimerSlackPolicy};
use policy::Work;
use record_job::Job;
use reply::{Fields, Information};

pub mod policy;

// -- Making ----------------------------------------------------------------------------------

// 01: `Job::create_child`; w and held stand under the new name. The inherited policy is fixed when a job is made.
// Apart from `process::create_with_ext`, its twin by its text: the record made and the size of its table differ.
#[tactic(auto, using(crate::proofs::Moving::moving), unfolding(model::specs::JobCalls::create_child))]
pub fn create_child(
    job: u8,
    new: u8,
    j: Job,
    own: JobPolicy,
    inherited: JobPolicy,
    w: &mut Job,
    held: &mut JobPolicy,
) -> Result<(), Refusal>
    ensures { Makes (λ t. create_child t job new) job new j own inherited w.old w.new held.old held.new result }
{
    if 32 <= job {
        return Err(Refusal::PastTable);
    }
    if 32 <= new {
        return Err(Refusal::PastTable);
    }
    let Some(v) = j.found() else {
        return Err(Refusal::NotMade);
    };
    if w.made {
        return Err(Refusal::Used);
    }
    if v.killed {
        return Err(Refusal::Zx(ZxError::BadState));
    }
    *w = Job::new(job);
    *held = own.merge(inherited);
    Ok(())
}

// -- Killing ---------------------------------------------------------------------------------

// 02: `Job::kill`; alone: the job is known to list nothing, and no killed job lists it, so that the kill stays with it.
// Answers whether the kill reaches further, and is the cascade's.
#[tactic(auto, using(crate::proofs::Moving::moving), unfolding(model::specs::JobCalls::kill_job_call))]
pub fn kill(job: u8, j: &mut Job, alone: bool) -> Result<bool, Refusal>
    ensures { Kills (λ t. kill_job_call t job) job j.old j.new alone result }
{
    if 32 <= job {
        return Err(Refusal::PastTable);
    }
    let Some(v) = j.found() else {
        return Err(Refusal::NotMade);
    };
    if v.killed {
        return Ok(false);
    }
    if alone {
        *j = v.killed().terminated();
        return Ok(false);
    }
    Ok(true)
}

// -- Settings --------------------------------------------------------------------------------

// 0f once its list has been gone through; empty: the job lists nothing. The entries before a refused one stay set.
#[tactic(auto, using(crate::proofs::Moving::moving), unfolding(crate::specs::Work::finish_work, crate::specs::Work::answer_with))]
pub fn settle_policy(
    job: u8,
    option: u8,
    w: Work,
    j: Job,
    own: &mut JobPolicy,
    empty: bool,
) -> Result<(), Refusal>
    ensures { Sets (λ t. finish_work t job option w) job j own.old own.new empty result }
{
    if 1 < option {
        return Err(Refusal::BadField);
    }
    if w.bad {
        return Err(Refusal::BadField);
    }
    if 32 <= job {
        return Err(Refusal::PastTable);
    }
    let Some(_) = j.found() else {
        return Err(Refusal::NotMade);
    };
    if !empty {
        return Err(Refusal::Zx(ZxError::BadState));
    }
    *own = w.own;
    if w.refused {
        return Err(Refusal::Zx(ZxError::AlreadyExists));
    }
    Ok(())
}

// 0f: `Job::set_policy_basic` with up to fifteen entries by value; a count above 15 takes all fifteen.
pub fn set_policy(
    job: u8,
    option: u8,
    count: u8,
    policies: [BasicPolicy; 15],
    j: Job,
    own: &mut JobPolicy,
    inherited: JobPolicy,
    empty: bool,
) -> Result<(), Refusal>
    ensures { SetsUnder job option (take count policies) j own.old own.new inherited empty result }
{
    let w = policy::first(*own, inherited, option, count, policies);
    settle_policy(job, option, w, j, own, empty)
}

// 10: `Job::set_policy_timer_slack`; empty: the job lists nothing.
#[tactic(auto, using(crate::proofs::Moving::moving), unfolding(model::specs::JobCalls::set_policy_timer_slack))]
pub fn set_policy_timer_slack(
    job: u8,
    policy: TimerSlackPolicy,
    j: &mut Job,
    empty: bool,
) -> Result<(), Refusal>
    ensures { Settles (λ t. set_policy_timer_slack t job policy) job j.old j.new empty result }
{
    if 2 < policy.mode {
        return Err(Refusal::BadField);
    }
    if 32 <= job {
        return Err(Refusal::PastTable);
    }
    let Some(v) = j.found() else {
        return Err(Refusal::NotMade);
    };
    if !empty {
        return Err(Refusal::Zx(ZxError::BadState));
    }
    if policy.slack < 0 {
        return Err(Refusal::Zx(ZxError::InvalidArgs));
    }
    j.slack = v.slack.generate_new(policy);
    Ok(())
}

// -- Information -----------------------------------------------------------------------------

// Killed, terminated, slack amount, mode.
fn fields_of(v: Job) -> Fields
    ensures { result ≡ fields_of v }
{
    let slack = v.slack;
    Fields::JobFields {
        killed: v.killed,
        terminated: v.terminated,
        amount: slack.amount,
        mode: slack.mode,
    }
}

// 1b: job information, with the policy: the inherited entries win.
#[tactic(auto, using(crate::proofs::Moving::moving), unfolding(model::specs::JobCalls::job_information))]
pub fn get_info(
    job: u8,
    j: Job,
    own: JobPolicy,
    inherited: JobPolicy,
) -> Result<Information, Refusal>
    ensures { Shows (λ t. job_information t job) job j own inherited result }
{
    if 32 <= job {
        return Err(Refusal::PastTable);
    }
    let Some(v) = j.found() else {
        return Err(Refusal::NotMade);
    };
    Ok(Information {
        fields: fields_of(v),
        policy: own.merge(inherited),
    })
}
