// Whether a step of 0 to 63 is possible, asked of a run laid flat: the drain asks this of many numbers for each step that it does.
ghost use Rattle.std.specs.Prelude.{◌≡◌, true, ◌<◌, ltb};
ghost use Rattle.job.specs.Jobs.{JobSized, kind_of, b_of};
ghost use Rattle.run.specs.Fit.{channel_at, totals_at, count_at};
ghost use Rattle.flat.specs.Columns.{head_of, is_barrier};
ghost use Rattle.drain.specs.Ready.{head_moves, delivers_by, acts_by, task_by, possible_in, full_tasks};

use flat::Flat;
use job::Job;
use kinds::SOURCE;

// Whether the head of channel `c` can be received by task `t`: a record needs room on every output and in the received, a barrier only
// where it is the last of the task's inputs to be marked.
fn moves(job: &Job, flat: &Flat, c: usize, t: usize, full: bool) -> bool
    requires { JobSized job.now × (c < 32) × (t < 16) }
    ensures { result ≡ head_moves job.now.to flat.now.marked job.now.channels c (is_barrier (head_of (channel_at flat.now c)))
        full (totals_at flat.now.live t).count }
{
    if flat.is_barrier(c) {
        if full {
            let mut marks = *flat.marked();
            marks[c] = true;
            return !outputs::parts::all_marked(job, &marks, usize::from(job.to[c]));
        }
        return true;
    }
    !full & (flat.received(t) < 1048576)
}

// Whether channel `c`, which leads to task `t`, can be delivered from.
#[tactic(auto, unfolding(crate::specs::Ready::delivers_by))]
fn delivers(job: &Job, flat: &Flat, c: usize, t: usize, full: bool) -> bool
    requires { JobSized job.now × (c < 32) × (t < 16) }
    ensures { result ≡ delivers_by job.now.to flat.now.marked job.now.channels c (channel_at flat.now c).count
        (is_barrier (head_of (channel_at flat.now c))) full (totals_at flat.now.live t).count }
{
    if job.channels <= c {
        return false;
    }
    if flat.count(c) == 0 {
        return false;
    }
    if flat.is_marked(c) {
        return false;
    }
    moves(job, flat, c, t, full)
}

// Whether source `t` can read its next record (`n` below 48) or send its waiting barrier.
#[tactic(auto, unfolding(crate::specs::Ready::acts_by))]
fn acts(job: &Job, flat: &Flat, n: u16, t: usize, full: bool) -> bool
    requires { t < 16 }
    ensures { result ≡ acts_by n (ltb t job.now.tasks) (kind_of job.now t) (b_of job.now t) (totals_at flat.now.live t).count
        (ltb 0 (count_at flat.now.waiting t)) full }
{
    if job.tasks <= t {
        return false;
    }
    if job.kinds[t] != SOURCE {
        return false;
    }
    if full {
        return false;
    }
    if n < 48 {
        return flat.received(t) < job.b[t].unsigned_abs();
    }
    flat.waits(t)
}

// The task that a step of 0 to 63 speaks of.
pub fn task_of(job: &Job, n: u16) -> usize
    ensures { (result ≡ task_by job.now.to n) × (result < 16) }
{
    if n < 32 {
        return usize::from(job.to[usize::from(n)]) % 16;
    }
    usize::from(n % 16)
}

// Whether step `n` is possible; `full` says which tasks have a full output.
#[tactic(auto, unfolding(crate::specs::Ready::possible_in))]
pub fn is_possible(job: &Job, flat: &Flat, full: &[bool; 16], n: u16) -> bool
    requires { JobSized job.now }
    ensures { result ≡ possible_in job.now full.now flat.now n }
{
    let t = task_of(job, n);
    if n < 32 {
        return delivers(job, flat, usize::from(n), t, full[t]);
    }
    acts(job, flat, n, t, full[t])
}

// The tasks with a full output.
#[tactic(auto, using(crate::proofs::Asking::noted_more), unfolding(crate::specs::Ready::noted_to))]
pub fn full_tasks(job: &Job, flat: &Flat) -> [bool; 16]
    requires { JobSized job.now }
    ensures { result ≡ full_tasks job.now flat.now }
{
    let mut full = [false; 16];
    for c in 0..job.channels {
        let t = usize::from(job.from[c]);
        full[t] |= 8 <= flat.count(c);
    }
    full
}
