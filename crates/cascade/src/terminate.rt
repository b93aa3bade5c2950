// terminate.rt: whether a job lists something, and what an empty list brings: `is_empty`, `remove_child`,
// `remove_process` and `terminate` of job.rs.
ghost use Rattle.std.specs.Prelude.{◌≡◌};
ghost use Rattle.model.specs.Job.{job_empty, may_terminate, terminate_job, unlist_process};

use records::reading::{job_at, process_at};
use records::tables::Tables;

// -- Tests ---------------------------------------------------------------------------------

// `is_empty`: job j lists no child and no process.
#[tactic(auto, unfolding(model::specs::Job::job_empty, model::specs::Job::lists_child, model::specs::Job::lists_process))]
pub fn job_empty(t: Tables, j: u8) -> bool
    ensures { result ≡ job_empty t j }
{
    lists::job_empty(t.jobs, t.processes, j)
}

// Whether job j is killed and lists nothing.
#[tactic(auto, using(laws::proofs::Flow::branches), unfolding(model::specs::Job::may_terminate))]
fn may_terminate(t: Tables, j: u8) -> bool
    ensures { result ≡ may_terminate t j }
{
    job_at(t, j).killed && job_empty(t, j)
}

// -- Terminations --------------------------------------------------------------------------

// `terminate`, and `remove_child` on the parent: one left killed and empty by it terminates too, and so on upward.
pub fn terminate_job(mut t: Tables, j: u8) -> Tables
    ensures { result ≡ terminate_job t j }
{
    let mut at = j;
    for _step in 0..32u8 {
        let job = job_at(t, at);
        t = t.with_job(at, job.terminated());
        let Some(p) = job.parent else {
            return t;
        };
        if !may_terminate(t, p) {
            return t;
        }
        at = p;
    }
    t
}

// `remove_process`: process p ends and leaves its job's list; a job left killed and empty by it terminates.
#[tactic(auto, using(laws::proofs::Flow::branches), unfolding(model::specs::Job::unlist_process))]
#[inline(never)]
pub fn unlist_process(mut t: Tables, p: u8) -> Tables
    ensures { result ≡ unlist_process t p }
{
    let process = process_at(t, p);
    t = t.with_process(p, process.ended());
    if may_terminate(t, process.job) {
        return terminate_job(t, process.job);
    }
    t
}
