// policy.rt: a list of entries set on a job's own policy, entry by entry. One pass notes what each entry brings; the
// refusals are answered after it, in document 01's order. Follows `set_policy_basic` of job.rs.
ghost use Rattle.std.specs.Prelude.{take, ◌≡◌};
ghost use Rattle.model.specs.JobPolicy.{bad_entry};
ghost use Rattle.job.specs.Work.{start_work, enter_work, step_work, after_each};

use job_policy::{BasicPolicy, JobPolicy, PolicyAction, PolicyCondition};

// What is known after some entries. Two flags and no `Result`: an entry outside its lists is looked for past a refused
// one too, so that neither takes the other's place.
#[derive(Drop)]
pub struct Work {
    pub own: JobPolicy,
    pub inherited: JobPolicy,
    pub option: u8,
    // Whether an entry was outside its lists.
    pub bad: bool,
    // Whether an entry was refused: none after it is set.
    pub refused: bool,
}

// A condition or an action outside its list.
#[tactic(auto, using(laws::proofs::Flow::branches), unfolding(model::specs::JobPolicy::bad_entry))]
fn bad_entry(policy: BasicPolicy) -> bool
    ensures { result ≡ bad_entry policy }
{
    PolicyCondition::COUNT <= policy.condition || PolicyAction::COUNT <= policy.action
}

impl Work {
    // Before the first entry: what the job has set, and what it inherited.
    pub fn start(own: JobPolicy, inherited: JobPolicy, option: u8) -> Work
        ensures { result ≡ start_work own inherited option }
    {
        Work {
            own: own,
            inherited: inherited,
            option: option,
            bad: false,
            refused: false,
        }
    }

    // A good entry. Where the parent set its condition, Absolute (0) refuses it and Relative skips it.
    #[tactic(auto, using(laws::proofs::Flow::branches, crate::proofs::Fold::set_there, crate::proofs::Fold::unset_there), unfolding(crate::specs::Work::enter_work))]
    fn enter(mut self, policy: BasicPolicy) -> Work
        ensures { result ≡ enter_work self policy }
    {
        let Some(_) = self.inherited.get_action(policy.condition) else {
            self.own = self.own.apply(policy);
            return self;
        };
        if self.option == 0 {
            self.refused = true;
            return self;
        }
        self
    }

    // One entry of the list.
    #[tactic(auto, using(laws::proofs::Flow::branches), unfolding(crate::specs::Work::step_work))]
    pub fn step(mut self, policy: BasicPolicy) -> Work
        ensures { result ≡ step_work self policy }
    {
        if bad_entry(policy) {
            self.bad = true;
            return self;
        }
        if self.refused {
            return self;
        }
        self.enter(policy)
    }

    // Every entry of a list.
    pub fn each(mut self, policies: &[BasicPolicy]) -> Work
        ensures { result ≡ after_each self policies.now }
    {
        for policy in policies {
            self = self.step(*policy);
        }
        self
    }
}

// The first entries of fifteen.
pub fn first(
    own: JobPolicy,
    inherited: JobPolicy,
    option: u8,
    count: u8,
    policies: [BasicPolicy; 15],
) -> Work
    ensures { result ≡ after_each (start_work own inherited option) (take count policies) }
{
    let n = (count as usize).min(15);
    Work::start(own, inherited, option).each(&policies[..n])
}
