// What a drain has left to do.
ghost use Rattle.std.specs.Prelude.{◌≡◌};
ghost use Rattle.job.specs.Jobs.{JobSized};
ghost use Rattle.drain.specs.Drains.{left_by, tasks_left, channels_left, some_left};

use job::Job;
use kinds::SOURCE;
use run::Run;

// A record to be read, or a barrier that waits.
fn task_left(kind: u8, b: i32, received: u32, waits: bool) -> bool
    ensures { result ≡ left_by kind b received waits }
{
    kind == SOURCE && received < b.unsigned_abs() || waits
}

fn tasks_left(job: &Job, run: &Run) -> bool
    requires { JobSized job.now }
    ensures { result ≡ tasks_left job.now run.now }
{
    (0..job.tasks).any(|t| task_left(
        job.kinds[t],
        job.b[t],
        run.live[t].count,
        0 < run.waiting[t],
    ))
}

fn channels_left(job: &Job, run: &Run) -> bool
    requires { JobSized job.now }
    ensures { result ≡ channels_left job.now run.now }
{
    (0..job.channels).any(|c| run.channels[c].count != 0)
}

#[tactic(auto, unfolding(crate::specs::Drains::some_left))]
pub fn some_left(job: &Job, run: &Run) -> bool
    requires { JobSized job.now }
    ensures { result ≡ some_left job.now run.now }
{
    tasks_left(job, run) || channels_left(job, run) || 0 < run.under_way
}
