// job_policy: the policy of a job by value, and its timer slack. Follows job_policy.rs.
// Conditions, actions and modes are numbers. A condition or an action outside its list changes nothing and finds
// nothing; a mode is kept as it is.
#![tactic(auto)]

ghost use Rattle.std.specs.Prelude.{true, ◌≡◌};
ghost use Rattle.job_policy.specs.Policy.{no_policy, get_action, apply, merged_action, merge};
ghost use Rattle.job_policy.specs.Policy.{Cases};
ghost use Rattle.job_policy.specs.Slack.{fresh_slack, larger, generate_new};

// -- Conditions and actions ----------------------------------------------------------------

// The condition under which a policy is asked. A number by the scope, as an action is: a call may name one outside the
// list, and refuses it.
#[derive(Drop)]
pub struct PolicyCondition;

impl PolicyCondition {
    pub const BAD_HANDLE: u8 = 0;

    pub const WRONG_OBJECT: u8 = 1;

    pub const VMAR_WX: u8 = 2;

    pub const NEW_ANY: u8 = 3;

    pub const NEW_VMO: u8 = 4;

    pub const NEW_CHANNEL: u8 = 5;

    pub const NEW_EVENT: u8 = 6;

    pub const NEW_EVENT_PAIR: u8 = 7;

    pub const NEW_PORT: u8 = 8;

    pub const NEW_SOCKET: u8 = 9;

    pub const NEW_FIFO: u8 = 10;

    pub const NEW_TIMER: u8 = 11;

    pub const NEW_PROCESS: u8 = 12;

    pub const NEW_PROFILE: u8 = 13;

    pub const AMBIENT_MARK_VMO_EXEC: u8 = 14;
    // How many there are.
    pub const COUNT: u8 = 15;
}

// What is done under a condition: a number, as a condition is.
#[derive(Drop)]
pub struct PolicyAction;

impl PolicyAction {
    pub const ALLOW: u8 = 0;

    pub const DENY: u8 = 1;

    pub const ALLOW_EXCEPTION: u8 = 2;

    pub const DENY_EXCEPTION: u8 = 3;

    pub const KILL: u8 = 4;
    // How many there are.
    pub const COUNT: u8 = 5;
}

// An entry to set.
#[derive(Clone, Copy, PartialEq, Eq)]
pub struct BasicPolicy {
    pub condition: u8,
    pub action: u8,
}

// -- The policy ----------------------------------------------------------------------------

// Entry 0 is none, a + 1 the action a.
#[derive(Clone, Copy, PartialEq, Eq)]
pub struct JobPolicy {
    pub action: [u8; 15],
}

// An entry under its parent's.
#[tactic(auto, using(laws::proofs::Flow::branches), unfolding(crate::specs::Policy::merged_action))]
fn merged_action(own: u8, parent: u8) -> u8
    ensures { result ≡ merged_action own parent }
{
    if parent == 0 { own } else { parent }
}

impl JobPolicy {
    // The policy that sets nothing.
    pub fn none() -> JobPolicy
        ensures { result ≡ no_policy }
    {
        JobPolicy { action: [0; 15] }
    }

    // The action of a condition.
    #[tactic(auto, using(laws::proofs::Flow::branches), unfolding(crate::specs::Policy::get_action))]
    pub fn get_action(self, condition: u8) -> Option<u8>
        ensures { result ≡ get_action self condition }
    {
        let entry = self.action.get(condition as usize).copied().unwrap_or(0);
        entry.checked_sub(1)
    }

    // The policy with one entry set.
    #[tactic(auto, using(laws::proofs::Flow::branches), unfolding(crate::specs::Policy::apply))]
    pub fn apply(mut self, policy: BasicPolicy) -> JobPolicy
        ensures { result ≡ apply self policy }
    {
        let i = policy.condition as usize;
        if i < 15 && policy.action < PolicyAction::COUNT {
            self.action[i] = policy.action + 1;
        }
        self
    }

    // The policy under a parent's: the parent's entries win.
    #[tactic(auto, using(laws::proofs::Flow::branches), unfolding(crate::specs::Policy::merge))]
    pub fn merge(mut self, parent: JobPolicy) -> JobPolicy
        ensures { result ≡ merge self parent }
    {
        // By index: after `iter_mut().zip(..)` no entry is known, and `array::from_fn` is told call by call.
        for i in 0..15 {
            self.action[i] = merged_action(self.action[i], parent.action[i]);
        }
        self
    }
}

// Carries the cases M1 and M2 of document 01 as its promise.
pub fn cases() -> bool
    ensures { (result ≡ true) × Cases }
{
    true
}

// -- Timer slack ---------------------------------------------------------------------------

// How a timer may deviate from its deadline. A number: a call takes any, and refuses one above 2. Past that no code
// asks which it is; it is kept, and shown as it came.
#[derive(Drop)]
pub struct Slack;

impl Slack {
    pub const CENTER: u8 = 0;

    pub const EARLY: u8 = 1;

    pub const LATE: u8 = 2;
}

#[derive(Clone, Copy, PartialEq, Eq)]
pub struct TimerSlackPolicy {
    pub slack: i64,
    pub mode: u8,
}

#[derive(Clone, Copy, PartialEq, Eq)]
pub struct TimerSlack {
    pub amount: i64,
    pub mode: u8,
}

impl TimerSlack {
    // The slack of a fresh job: it is not inherited.
    pub fn fresh() -> TimerSlack
        ensures { result ≡ fresh_slack }
    {
        TimerSlack {
            amount: 0,
            mode: Slack::CENTER,
        }
    }

    // The larger amount, and the new mode.
    #[tactic(auto, using(laws::proofs::Flow::branches), unfolding(crate::specs::Slack::generate_new, crate::specs::Slack::larger))]
    pub fn generate_new(self, policy: TimerSlackPolicy) -> TimerSlack
        ensures { result ≡ generate_new self policy }
    {
        TimerSlack {
            amount: self.amount.max(policy.slack),
            mode: policy.mode,
        }
    }
}
