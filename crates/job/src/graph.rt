// Rules 7 to 9 of the table of job answers, over the job by value: inputs, returning walks, worst counts.
ghost use Rattle.std.specs.Prelude.{◌≡◌, cond, List, ℕ, ◌<◌, ◌≤◌, eqb, nat_abs};
ghost use denote.Ref.{Bor};
ghost use Rattle.job.specs.Tests.{sweep, sweeps};
ghost use Rattle.job.specs.Jobs.{JobSized};
ghost use Rattle.job.specs.Rules.{has_input, bad_input, fault7, strike, struck_tasks, fault8};
ghost use Rattle.job.specs.Rules.{capped, capped_inflow, worst_anew, worst_counts, fault9};

use crate::Job;
use crate::sends::names;
use kinds::SOURCE;

fn has_input(job: &Job, t: usize) -> bool
    requires { JobSized job.now }
    ensures { result ≡ has_input job.now t }
{
    (0..job.channels).any(|c| names(job.to[c], t))
}

fn is_bad_input(source: bool, input: bool) -> bool
    ensures { result ≡ bad_input source input }
{
    source == input
}

pub fn has_fault_7(job: &Job) -> bool
    requires { JobSized job.now }
    ensures { result ≡ fault7 job.now }
{
    (0..job.tasks).any(|t| is_bad_input(job.kinds[t] == SOURCE, has_input(job, t)))
}

// Whether the task was struck, or every channel that leads into it comes from a struck task.
#[tactic(auto, unfolding(crate::specs::Rules::strike))]
fn is_struck(job: &Job, struck: &[bool; 16], t: usize) -> bool
    requires { (t < 16) × JobSized job.now }
    ensures { result ≡ strike job.now struck.now t }
{
    struck[t] || (0..job.channels).all(|c| !names(job.to[c], t) || struck[usize::from(job.from[c])])
}

// One sweep: each place below n anew, in order, from the list as it then stands.
#[tactic(auto, using(crate::proofs::Tests::sweep_more), unfolding(crate::specs::Tests::sweep))]
fn sweep<T: Copy, F: Fn(&[T; 16], usize) -> T>(list: &mut [T; 16], n: usize, anew: &F)
    requires { (n ≤ 16) × ((l : Bor (List T)) (t : ℕ) → t < n → F.pre anew.now l t) }
    ensures { (f : List T → ℕ → T)
        → ((l : Bor (List T)) (t : ℕ) (x : T) → t < n → F.post anew.now l t x → x ≡ f l.now t)
        → list.new ≡ sweep f list.old n }
{
    for t in 0..n {
        list[t] = anew(list, t);
    }
}

// As many sweeps as there are places below n.
#[tactic(auto, using(crate::proofs::Tests::sweeps_more), unfolding(crate::specs::Tests::sweeps))]
fn sweeps<T: Copy, F: Fn(&[T; 16], usize) -> T>(mut list: [T; 16], n: usize, anew: F) -> [T; 16]
    requires { (n ≤ 16) × ((l : Bor (List T)) (t : ℕ) → t < n → F.pre anew l t) }
    ensures { (f : List T → ℕ → T)
        → ((l : Bor (List T)) (t : ℕ) (x : T) → t < n → F.post anew l t x → x ≡ f l.now t)
        → result ≡ sweeps f list n n }
{
    for round in 0..n {
        sweep(&mut list, n, &anew);
    }
    list
}

// After as many sweeps as there are tasks no more can be struck.
#[tactic(auto, unfolding(crate::specs::Rules::struck_tasks))]
fn struck_tasks(job: &Job) -> [bool; 16]
    requires { JobSized job.now }
    ensures { result ≡ struck_tasks job.now }
{
    sweeps(
        [false; 16],
        job.tasks,
        |struck, t| is_struck(job, struck, t),
    )
}

// Some task is left: a walk returns to its start.
pub fn has_fault_8(job: &Job) -> bool
    requires { JobSized job.now }
    ensures { result ≡ fault8 job.now }
{
    let struck = struck_tasks(job);
    !struck[..job.tasks].iter().all(|&s| s)
}

#[tactic(auto, unfolding(crate::specs::Rules::capped))]
fn capped_at(x: u64) -> u32
    ensures { result ≡ capped x }
{
    x.min(1048577) as u32
}

// What a channel brings to a task, of its from-task's count: all of it, or nothing where it leads elsewhere.
fn brought(leads: bool, count: u32) -> u32
    ensures { result ≡ cond leads count 0 }
{
    if leads { count } else { 0 }
}

#[tactic(auto, using(crate::proofs::Worst::capped_le), unfolding(crate::specs::Rules::capped_inflow))]
fn inflow_of(job: &Job, worst: &[u32; 16], t: usize) -> u32
    requires { JobSized job.now }
    ensures { result ≡ capped_inflow job.now worst.now t job.now.channels }
{
    let mut sum: u32 = 0;
    for c in 0..job.channels {
        let f = usize::from(job.from[c]);
        sum = capped_at(u64::from(sum) + u64::from(brought(names(job.to[c], t), worst[f])));
    }
    sum
}

fn worst_of(kind: u8, b: i32, inflow: u32) -> u32
    ensures { result ≡ cond (eqb kind 0) (nat_abs b) inflow }
{
    if kind == SOURCE {
        b.unsigned_abs()
    } else {
        inflow
    }
}

#[tactic(auto, unfolding(crate::specs::Rules::worst_anew))]
fn worst_anew(job: &Job, worst: &[u32; 16], t: usize) -> u32
    requires { (t < 16) × JobSized job.now }
    ensures { result ≡ worst_anew job.now worst.now t }
{
    worst_of(job.kinds[t], job.b[t], inflow_of(job, worst, t))
}

#[tactic(auto, unfolding(crate::specs::Rules::worst_counts))]
fn worst_counts(job: &Job) -> [u32; 16]
    requires { JobSized job.now }
    ensures { result ≡ worst_counts job.now }
{
    sweeps([0; 16], job.tasks, |worst, t| worst_anew(job, worst, t))
}

pub fn has_fault_9(job: &Job) -> bool
    requires { JobSized job.now }
    ensures { result ≡ fault9 job.now }
{
    let worst = worst_counts(job);
    worst[..job.tasks].iter().any(|&count| 1048576 < count)
}
