// policy_calls: 0f with a lent list of any length: `Job::set_policy_basic`. One pass notes what each entry brings; the
// refusals are answered after it, by crate job. Follows job.rs; by value `job_calls::set_policy` takes up to fifteen.
#![tactic(auto)]

ghost use Rattle.std.specs.Prelude.{◌≡◌};
ghost use Rattle.model.specs.JobCalls.{set_policy_basic};
ghost use Rattle.error.specs.Numbers.{answer_of};
ghost use Rattle.reply.specs.Reply.{answered};

use error::Refusal;
use job::policy::Work;
use job_policy::BasicPolicy;
use records::tables::Tables;

// `Job::set_policy_basic`, with a list of any length.
#[tactic(auto, using(job_calls::proofs::Placed::placed, job::proofs::Fold::one_pass_at), unfolding(job::specs::Job::set_in, records::specs::Tables::put_own))]
pub fn set_policy_basic(
    t: &mut Tables,
    job: u8,
    option: u8,
    policies: &[BasicPolicy],
) -> Result<(), Refusal>
    ensures { answered t.new (answer_of result) ≡ set_policy_basic t.old job option policies.now }
{
    let i = (job % 32) as usize;
    let w = Work::start(t.own[i], t.inherited[i], option).each(policies);
    let empty = lists::job_empty(t.jobs, t.processes, job);
    job::settle_policy(job, option, w, t.jobs[i], &mut t.own[i], empty)
}
