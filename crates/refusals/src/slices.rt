// slices: 0f by a lent list, of more entries than a command or the form by value has. Writes for each list its length,
// the answer, the job's information with its own policy, and whether the form by value says the same.
use crate::{pair, prepared};
use error::answer_of;
use job_policy::BasicPolicy;
use policy_calls::set_policy_basic;
use records::reading::{job_at, own_at};
use records::tables::{Tables, fresh_tables};
use reply::{Fields, Shown};
use std::{array, io};

// -- The lists -----------------------------------------------------------------------------

// The conditions go round from `first`, the actions from 0, and one further where the conditions begin again.
fn entry(first: u8, k: u8) -> BasicPolicy {
    pair((first % 15 + k % 15) % 15, (k % 15 + k / 15) % 5)
}

// Twenty entries: the last five set conditions anew, and to other actions.
fn twenty(first: u8) -> [BasicPolicy; 20] {
    array::from_fn(|k| entry(first, k as u8))
}

// -- A line --------------------------------------------------------------------------------

// The job's information, with its own policy in place of the merged one.
fn put(rt: &impl Print, number: u8, t: &Tables, job: u8, answer: i64, end: &str) -> io::Result<()> {
    let v = job_at(*t, job);
    let fields = Fields::JobFields {
        killed: v.killed,
        terminated: v.terminated,
        amount: v.slack.amount,
        mode: v.slack.mode,
    };
    let shown = Shown {
        answer,
        fields,
        policy: own_at(*t, job),
    };
    let mut out = [0u8; 4096];
    let n = lines::put_line(&mut out, 0, u64::from(number), shown);
    // The line's own end is left out.
    rt.write_all(&out[..n.saturating_sub(1)])?;
    println!(rt; "{end}")
}

// The first n entries by both forms; past fifteen there is one. They agree where they have one answer and leave the job
// one policy.
fn case(
    rt: &impl Print,
    mut t: Tables,
    job: u8,
    option: u8,
    n: u8,
    list: &[BasicPolicy; 20],
) -> io::Result<()> {
    let mut u = t;
    let lent = &list[..usize::from(n).min(20)];
    let answer = answer_of(set_policy_basic(&mut t, job, option, lent));
    let Some(fifteen) = list.first_chunk::<15>().filter(|_| n <= 15) else {
        return put(rt, n, &t, job, answer, "");
    };
    let by_value = answer_of(job_calls::set_policy(&mut u, job, option, n, *fifteen));
    let end = if answer == by_value && own_at(t, job).action == own_at(u, job).action {
        " agree"
    } else {
        " differ"
    };
    put(rt, n, &t, job, answer, end)
}

// -- The cases -----------------------------------------------------------------------------

// Nothing is inherited: each list is set whole, whatever its length.
fn accepted(rt: &impl Print, t: Tables) -> io::Result<()> {
    let list = twenty(0);
    for n in [0, 4, 5, 9, 15, 16, 20] {
        case(rt, t, 0, 0, n, &list)?;
    }
    case(rt, t, 0, 1, 20, &list)
}

// Job 2 inherits conditions 4 and 6. Absolute ends at the first of them, and what stands before it stays set; Relative
// passes over them. From condition 7 on, 4 is the thirteenth entry.
fn inherited(rt: &impl Print, t: Tables) -> io::Result<()> {
    let list = twenty(0);
    for (option, n) in [(0, 4), (0, 5), (0, 20), (1, 5), (1, 9), (1, 20)] {
        case(rt, t, 2, option, n, &list)?;
    }
    let later = twenty(7);
    for (option, n) in [(0, 12), (0, 13), (0, 20), (1, 15), (1, 16)] {
        case(rt, t, 2, option, n, &later)?;
    }
    Ok(())
}

// A field outside its list in the last entry: nothing changes, not even what the job had.
fn bad_fields(rt: &impl Print, t: Tables) -> io::Result<()> {
    let mut list = twenty(0);
    list[4] = pair(15, 1);
    case(rt, t, 2, 0, 4, &list)?;
    case(rt, t, 2, 0, 5, &list)?;
    list = twenty(0);
    list[15] = pair(0, 5);
    case(rt, t, 2, 1, 15, &list)?;
    case(rt, t, 2, 1, 16, &list)?;
    list = twenty(0);
    list[19] = pair(15, 5);
    case(rt, t, 2, 1, 19, &list)?;
    case(rt, t, 2, 1, 20, &list)
}

// An option that is none, a job past the table, an unmade one, and one that has a child.
fn refused(rt: &impl Print, t: Tables) -> io::Result<()> {
    let list = twenty(0);
    for (job, option) in [(32, 2), (32, 0), (9, 0), (1, 0)] {
        case(rt, t, job, option, 9, &list)?;
    }
    for (job, option) in [(1, 2), (32, 0), (9, 0), (1, 1)] {
        case(rt, t, job, option, 20, &list)?;
    }
    Ok(())
}

// The root has Deny for condition 4 and Kill for 6, job 1 is its child, and job 2 is job 1's.
pub fn all(rt: &impl Print) -> io::Result<()> {
    let t = fresh_tables();
    accepted(rt, t)?;
    let mut list = twenty(0);
    list[0] = pair(4, 1);
    list[1] = pair(6, 4);
    let mut jobs = t;
    prepared(set_policy_basic(&mut jobs, 0, 0, &list[..2]))?;
    prepared(job_calls::create_child(&mut jobs, 0, 1))?;
    prepared(job_calls::create_child(&mut jobs, 1, 2))?;
    inherited(rt, jobs)?;
    list[0] = pair(14, 3);
    let mut later = jobs;
    prepared(set_policy_basic(&mut later, 2, 0, &list[..1]))?;
    bad_fields(rt, later)?;
    refused(rt, jobs)
}
