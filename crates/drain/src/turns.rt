// Steps on a run laid flat, one after another, as long as they bring records.
ghost use Rattle.std.specs.Prelude.{◌≡◌, ◌≤◌, length};
ghost use Rattle.job.specs.Columns.{RecordsFit};
ghost use Rattle.job.specs.Fits.{JobFits};
ghost use Rattle.run.specs.Fit.{Fits};
ghost use Rattle.drain.specs.Turns.{Came};

use crate::ready::task_of;
use crate::search::next;
use crate::sending;
use channel::Cargo;
use flat::Flat;
use job::{Job, Records};
use run::Run;

#[derive(Clone, Copy)]
pub struct Turned {
    pub barrier: Option<u16>,
    pub steps: u32,
}

// The lowest-numbered possible step, again and again, as long as they bring records and the limit is not spent. Where a barrier's step is
// next, that is its number.
#[inline(never)]
#[tactic(auto, using(crate::proofs::Onward::goes_first))]
fn turns(job: &Job, records: &Records, flat: &mut Flat, limit: u32, start: u32) -> Turned
    requires fits { JobFits job.now (length records.now.cylinders.now) × RecordsFit records.now.cylinders.now records.now.values.now
        × Fits job.now flat.old }
    requires within { start ≤ limit }
    ensures { Came job.now records.now.cylinders.now records.now.values.now flat.old limit start result.steps result.barrier flat.new }
{
    let outs = sending::all_outputs(job);
    for steps in start..limit {
        let Some(n) = next(job, flat) else {
            return Turned {
                barrier: None,
                steps,
            };
        };
        let t = task_of(job, n);
        match sending::bring(job, records, flat, n, t) {
            Cargo::Barrier => {
                return Turned {
                    barrier: Some(n),
                    steps,
                };
            }
            Cargo::Record(got) => sending::forward(job, flat, n, t, outs[t], got),
        }
    }
    Turned {
        barrier: None,
        steps: limit,
    }
}

#[derive(Clone, Copy)]
pub struct Stopped {
    pub run: Run,
    pub barrier: Option<u16>,
    pub steps: u32,
}

// Steps that bring records, done on the run laid flat: the run after them, their number, and the barrier's step that is next, if any. Not
// inline: what stack the flat run takes is given back before a barrier's step.
#[inline(never)]
pub fn records(job: Job, records: &Records, run: Run, limit: u32, start: u32) -> Stopped
    requires fits { JobFits job (length records.now.cylinders.now) × RecordsFit records.now.cylinders.now records.now.values.now
        × Fits job run }
    requires within { start ≤ limit }
    ensures { Came job records.now.cylinders.now records.now.values.now run limit start result.steps result.barrier result.run }
{
    let mut flat = Flat::of(run);
    let went = turns(&job, records, &mut flat, limit, start);
    Stopped {
        run: flat.run(),
        barrier: went.barrier,
        steps: went.steps,
    }
}
