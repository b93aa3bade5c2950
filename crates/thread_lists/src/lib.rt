// thread_lists: a change of each thread that a process lists, and whether one bars it, over the table of threads by
// itself.
#![tactic(auto)]

ghost use Rattle.std.specs.Prelude.{ℕ, Bool, map, ◌≡◌};
ghost use Rattle.record_thread.specs.declared.Thread.{Thread};
ghost use Rattle.thread_lists.specs.Each.{one_of, bars, any_bars, changed_in};

use record_thread::Thread;

// What is done to a thread, and which thread bars it. A closure in its place would ask its caller that it may be
// called, and no public function here asks anything.
pub trait Change: Copy {
    ghost after: { Self → Thread → Thread };

    ghost bars: { Self → Thread → Bool };

    fn after(self, v: Thread) -> Thread
        ensures { result ≡ after self v };

    fn bars(self, v: Thread) -> bool
        ensures { result ≡ bars self v };
}

// The changes that calls make. One enum, and no type for each: what suspends and what resumes is one function over it.
#[derive(Clone, Copy)]
pub enum Each {
    Suspend,
    Resume,
    Kill,
}

// A full count bars a suspension, a count of 0 a resumption. Nothing bars a kill.
impl Change for Each {
    ghost after = { one_of };

    ghost bars = { bars };

    #[tactic(auto, unfolding(crate::specs::Each::one_of))]
    fn after(self, v: Thread) -> Thread {
        match self {
            Each::Suspend => v.suspend(),
            Each::Resume => v.resume(),
            Each::Kill => v.kill(),
        }
    }

    #[tactic(auto, unfolding(crate::specs::Each::bars))]
    fn bars(self, v: Thread) -> bool {
        match self {
            Each::Suspend => v.suspends == 65535,
            Each::Resume => v.suspends == 0,
            Each::Kill => false,
        }
    }
}

// Every thread that process p lists is changed.
pub fn each_thread<C: Change>(threads: &mut [Thread; 128], p: u8, change: C)
    ensures { threads.new ≡ map (changed_in (C.after change) p) threads.old }
{
    for each in threads {
        if each.thread_of(p) {
            *each = change.after(*each);
        }
    }
}

// Whether a thread that process p lists bars the change.
pub fn one_bars<C: Change>(threads: &[Thread; 128], p: u8, change: C) -> bool
    ensures { result ≡ any_bars (C.bars change) p threads.now }
{
    for v in threads {
        if v.thread_of(p) && change.bars(*v) {
            return true;
        }
    }
    false
}
