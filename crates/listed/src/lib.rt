// listed: records that carry a listed mark, and the two scans of a table of them: whether a list has one, and the next
// of it. The same for the children of a job, its processes, and the threads of a process.
#![tactic(auto)]

ghost use Rattle.std.specs.Prelude.{ℕ, Bool, ◌≡◌, take};
ghost use Rattle.laws.specs.Lists.{any};
ghost use Rattle.record_job.specs.Job.{child_of};
ghost use Rattle.record_process.specs.Process.{member_of};
ghost use Rattle.record_thread.specs.Thread.{thread_of};
ghost use Rattle.listed.specs.Next.{next_in};

use record_job::Job;
use record_process::Process;
use record_thread::Thread;

// A record that is on the list of the owner that it names, while it carries the listed mark.
pub trait Listed: Copy {
    ghost is_on: { Self → ℕ → Bool };

    // Whether it is on the list of the owner of this name.
    fn is_on(self, owner: u8) -> bool
        ensures { result ≡ is_on self owner };
}

// The children of a job.
impl Listed for Job {
    ghost is_on = { child_of };

    fn is_on(self, owner: u8) -> bool {
        self.child_of(owner)
    }
}

// The processes of a job.
impl Listed for Process {
    ghost is_on = { member_of };

    fn is_on(self, owner: u8) -> bool {
        self.member_of(owner)
    }
}

// The threads of a process.
impl Listed for Thread {
    ghost is_on = { thread_of };

    fn is_on(self, owner: u8) -> bool {
        self.thread_of(owner)
    }
}

// Whether the owner lists one.
pub fn any_on<T: Listed, const N: usize>(table: &[T; N], owner: u8) -> bool
    ensures { result ≡ any (λ v. T.is_on v owner) table.now }
{
    table.iter().any(|v| v.is_on(owner))
}

// The next that the owner lists, from a name on; no place past 255 is a name. It counts: as
// `enumerate().take(256).skip(from).find(..)` it was tried, and what is found was not shown to be the next.
pub fn next_on<T: Listed, const N: usize>(table: &[T; N], owner: u8, from: u8) -> Option<u8>
    ensures { result ≡ next_in (λ v. T.is_on v owner) (take 256 table.now) from }
{
    for i in from as usize..N.min(256) {
        if table[i].is_on(owner) {
            return Some(i as u8);
        }
    }
    None
}
