// Whether a run fits a job (answer 16), for any run whatever.
ghost use Rattle.std.specs.Prelude.{◌≡◌, ◌<◌, ◌≤◌};
ghost use Rattle.job.specs.Jobs.{JobSized};
ghost use Rattle.run.specs.Fit.{cargo_fits, channel_fits, place_fits, channels_fit};
ghost use Rattle.run.specs.Fit.{sum_fits, totals_fit, limit_of, counts_fit, task_fits, tasks_fit, run_fits};

use crate::Run;
use channel::{Cargo, Channel};
use job::Job;
use kinds::SOURCE;
use tally::Totals;

fn cargo_fits(cargo: Cargo) -> bool
    ensures { result ≡ cargo_fits cargo }
{
    match cargo {
        Cargo::Barrier => true,
        Cargo::Record(r) => (1..=20).contains(&r.cylinder),
    }
}

// A channel that claims more than 8 items is not looked into.
fn channel_fits(ch: Channel) -> bool
    ensures { result ≡ channel_fits ch }
{
    ch.count <= 8
        && ch.items[..ch.count]
            .iter()
            .all(|item| cargo_fits(item.cargo))
}

// Channel `c` fits, and where the job lacks it nothing is held for it.
#[tactic(auto, unfolding(crate::specs::Fit::place_fits))]
fn place_fits(ch: Channel, marked: bool, c: usize, channels: usize) -> bool
    ensures { result ≡ place_fits ch marked c channels }
{
    channel_fits(ch) && (c < channels || (ch.count == 0 && !marked))
}

fn channels_fit(run: &Run, channels: usize) -> bool
    ensures { result ≡ channels_fit run.now channels }
{
    (0..32).all(|c| place_fits(run.channels[c], run.marked[c], c, channels))
}

// The sum of so many 32-bit values.
fn sum_fits(sum: i64, count: u32) -> bool
    requires { count ≤ 1048576 }
    ensures { result ≡ sum_fits sum count }
{
    let n = i64::from(count);
    n * i64::from(i32::MIN) <= sum && sum <= n * i64::from(i32::MAX)
}

#[tactic(auto, unfolding(crate::specs::Fit::totals_fit))]
fn totals_fit(x: Totals, limit: u32) -> bool
    requires { limit ≤ 1048576 }
    ensures { result ≡ totals_fit x limit }
{
    x.count <= limit
        && sum_fits(x.sum, x.count)
        && (x.count != 0 || (x.least == 0 && x.greatest == 0))
}

// The most that a task may have counted; nothing where the job lacks the task.
#[tactic(auto, unfolding(crate::specs::Fit::limit_of))]
fn limit_of(job: &Job, t: usize) -> u32
    requires { t < 16 }
    ensures { result ≡ limit_of job.now t }
{
    if job.tasks <= t {
        0
    } else if job.kinds[t] == SOURCE {
        job.b[t].unsigned_abs()
    } else {
        1048576
    }
}

fn counts_fit(task: bool, source: bool, stored: u8, waiting: u8) -> bool
    ensures { result ≡ counts_fit task source stored waiting }
{
    stored <= 1 && waiting <= 1 && (task || stored == 0) && (waiting == 0 || (task && source))
}

// What is held for task `t` fits: all three totals, and none where the job lacks the task.
#[tactic(auto, using(crate::proofs::Clauses::limit_low), unfolding(crate::specs::Fit::task_fits))]
fn task_fits(job: &Job, run: &Run, t: usize) -> bool
    requires { (t < 16) × JobSized job.now }
    ensures { result ≡ task_fits job.now run.now t }
{
    let limit = limit_of(job, t);
    let source = job.kinds[t] == SOURCE;
    counts_fit(t < job.tasks, source, run.stored[t], run.waiting[t])
        && totals_fit(run.live[t], limit)
        && totals_fit(run.half[t], limit)
        && totals_fit(run.last[t], limit)
}

fn tasks_fit(job: &Job, run: &Run) -> bool
    requires { JobSized job.now }
    ensures { result ≡ tasks_fit job.now run.now }
{
    (0..16).all(|t| task_fits(job, run, t))
}

#[tactic(auto, unfolding(crate::specs::Fit::run_fits))]
pub fn run_fits(job: Job, run: Run) -> bool
    requires { JobSized job }
    ensures { result ≡ run_fits job run }
{
    channels_fit(&run, job.channels) && tasks_fit(&job, &run) && run.under_way <= 1
}
