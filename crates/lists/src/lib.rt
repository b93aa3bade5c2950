// lists: what the tables of jobs and processes say of a job's lists, and of the jobs above it.
#![tactic(auto)]

ghost use Rattle.std.specs.Prelude.{not, ◌≡◌, get_or};
ghost use Rattle.laws.specs.Choice.{◌and◌};
ghost use Rattle.laws.specs.Lists.{any};
ghost use Rattle.record_job.specs.Job.{no_job, child_of};
ghost use Rattle.record_process.specs.Process.{member_of};
ghost use Rattle.lists.specs.Above.{Above};
ghost use Rattle.lists.specs.Alone.{below_killed, kills_alone};

use listed::any_on;
use record_job::Job;
use record_process::Process;
use records::reading::job_in;

// `is_empty`: job j lists no child and no process.
#[tactic(auto, using(laws::proofs::Flow::branches))]
pub fn job_empty(jobs: [Job; 32], processes: [Process; 64], j: u8) -> bool
    ensures { result ≡ (not (any (λ v. child_of v j) jobs) and not (any (λ q. member_of q j) processes)) }
{
    !any_on(&jobs, j) && !any_on(&processes, j)
}

// Whether job j is job i or an ancestor of it.
pub fn at_or_above(jobs: [Job; 32], j: u8, i: u8) -> bool
    ensures { Above jobs j i result }
{
    let mut at = i;
    for _step in 0..32u8 {
        if at == j {
            return true;
        }
        let Some(p) = job_in(jobs, at).parent else {
            return false;
        };
        at = p;
    }
    false
}

// -- A kill that stays with its job ----------------------------------------------------------

// Whether the parent is killed, so that it may terminate with its last child.
fn below_killed(jobs: [Job; 32], parent: Option<u8>) -> bool
    ensures { result ≡ below_killed jobs parent }
{
    parent.is_some_and(|p| job_in(jobs, p).killed)
}

// Whether the kill of job j stays with its record: it lists nothing, and no killed job lists it.
#[tactic(auto, using(laws::proofs::Flow::branches), unfolding(crate::specs::Alone::kills_alone))]
pub fn kills_alone(jobs: [Job; 32], processes: [Process; 64], j: u8) -> bool
    ensures { result ≡ kills_alone jobs processes j }
{
    job_empty(jobs, processes, j) && !below_killed(jobs, job_in(jobs, j).parent)
}
