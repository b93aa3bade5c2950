// state.rt: what a thread shows, its state and signals, and whether it can act or waits. Follows thread.rs.
ghost use Rattle.std.specs.Prelude.{◌≡◌};
ghost use Rattle.record_thread.specs.Thread.{hides, shown_state, signals_of, signals, is_live, is_idle};
ghost use Rattle.record_thread.specs.Thread.{is_free, is_in_wait, exception_of};

use crate::{Signals, Thread, ThreadState, Waiting};
use record_exception::Exception;

// Whether a stored state hides the suspend count.
#[tactic(auto, using(laws::proofs::Flow::branches), unfolding(crate::specs::Thread::hides))]
fn hides(state: u16) -> bool
    ensures { result ≡ hides state }
{
    matches!(
        state,
        ThreadState::BLOCKED_EXCEPTION | ThreadState::DYING | ThreadState::DEAD
    )
}

// The signals of a shown state.
#[tactic(auto, using(laws::proofs::Flow::branches), unfolding(crate::specs::Thread::signals_of))]
fn signals_of(shown: u16) -> Signals
    ensures { result ≡ signals_of shown }
{
    match shown {
        ThreadState::NEW | ThreadState::DYING => Signals::NoSignal,
        ThreadState::SUSPENDED => Signals::SuspendedSignal,
        ThreadState::DEAD => Signals::TerminatedSignal,
        _ => Signals::RunningSignal,
    }
}

impl Thread {
    // The shown state: Suspended over any stored state but BlockedException, Dying and Dead.
    #[tactic(auto, using(laws::proofs::Flow::branches), unfolding(crate::specs::Thread::shown_state))]
    pub fn state(self) -> u16
        ensures { result ≡ shown_state self }
    {
        if self.suspends == 0 || hides(self.state) {
            return self.state;
        }
        ThreadState::SUSPENDED
    }

    // The signals follow the shown state.
    #[tactic(auto, using(laws::proofs::Flow::branches), unfolding(crate::specs::Thread::signals))]
    pub fn signals(self) -> Signals
        ensures { result ≡ signals self }
    {
        signals_of(self.state())
    }

    // Whether it was started and has not finished.
    #[tactic(auto, using(laws::proofs::Flow::branches), unfolding(crate::specs::Thread::is_live))]
    fn is_live(self) -> bool
        ensures { result ≡ is_live self }
    {
        self.started && self.state != ThreadState::DEAD
    }

    fn is_idle(self) -> bool
        ensures { result ≡ is_idle self }
    {
        matches!(self.waiting, Waiting::NotWaiting)
    }

    // Whether it can act by itself: live and not waiting.
    #[tactic(auto, using(laws::proofs::Flow::branches), unfolding(crate::specs::Thread::is_free))]
    pub fn is_free(self) -> bool
        ensures { result ≡ is_free self }
    {
        self.is_live() && self.is_idle()
    }

    pub fn is_in_wait(self) -> bool
        ensures { result ≡ is_in_wait self }
    {
        matches!(self.waiting, Waiting::InWait)
    }

    // The exception that a handler has.
    pub fn exception(self) -> Option<Exception>
        ensures { result ≡ exception_of self }
    {
        match self.waiting {
            Waiting::InException(e) => Some(e),
            Waiting::NotWaiting | Waiting::InWait => None,
        }
    }
}
