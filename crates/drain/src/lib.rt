// The drain.
#![tactic(auto)]

ghost use Rattle.std.specs.Prelude.{◌≡◌, length};
ghost use Rattle.job.specs.Columns.{RecordsFit};
ghost use Rattle.job.specs.Fits.{JobFits};
ghost use Rattle.run.specs.Fit.{Fits};
ghost use Rattle.drain.specs.Drains.{drained_of};
ghost use Rattle.drain.specs.Turns.{last_answer};

mod left;
mod ready;
mod search;
mod sending;
mod turns;

use job::{Job, Records};
use run::Run;

pub const NOTHING_LEFT: u8 = 0;

pub const SPENT: u8 = 18;

pub const STUCK: u8 = 19;

// The answer stands beside the run and the steps: document 01, "18 and 19 are no refusals, the steps done stand".
#[derive(Clone, Copy)]
pub struct Drained {
    pub run: Run,
    pub answer: u8,
    pub steps: u32,
}

// The answer of a drain that ends: "Nothing left comes before 18, 18 before 19."
fn last_answer(left: bool, spent: bool) -> u8
    ensures { result ≡ last_answer left spent }
{
    if left {
        if spent {
            return SPENT;
        }
        return STUCK;
    }
    NOTHING_LEFT
}

// The lowest-numbered possible step, again and again, until none is possible or the limit is spent: steps that bring records are done on
// the run laid flat, which is never copied; a barrier, which is rare, goes through the plain step.
pub fn drain(job: Job, records: &Records, run: Run, limit: u32) -> Drained
    requires { JobFits job (length records.now.cylinders.now) × Fits job run × RecordsFit records.now.cylinders.now records.now.values.now }
    ensures { result ≡ drained_of job records.now.cylinders.now records.now.values.now limit 0 run }
{
    let mut now = run;
    let mut steps: u32 = 0;
    loop {
        let went = turns::records(job, records, now, limit, steps);
        let Some(n) = went.barrier else {
            let left = left::some_left(&job, &went.run);
            return Drained {
                run: went.run,
                answer: last_answer(left, went.steps == limit),
                steps: went.steps,
            };
        };
        now = step::step(job, records, went.run, n).run;
        steps = went.steps + 1;
    }
}
