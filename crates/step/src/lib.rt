// One step of a run, by its number.
#![tactic(auto)]

ghost use Rattle.std.specs.Prelude.{◌≡◌, length};
ghost use Rattle.job.specs.Columns.{RecordsFit};
ghost use Rattle.job.specs.Fits.{JobFits};
ghost use Rattle.run.specs.Fit.{Fits};
ghost use Rattle.step.specs.Algorithm.{answered};
ghost use Rattle.step.specs.Step.{stepped};

mod algorithm;
mod rules;

pub use channel::NOTHING_THERE;
use job::{Job, Records};
use run::Run;

pub const DONE: u8 = 0;

pub const NO_SUCH_STEP: u8 = 11;

pub const CHANNEL_BLOCKED: u8 = 12;

pub const OUTPUT_FULL: u8 = 14;

pub const UNDER_WAY_ALREADY: u8 = 15;

pub const COUNT_FULL: u8 = 17;

pub const SNAPSHOT_COMPLETE: u8 = 20;

// The answer stands beside the run: document 01, "Each refusal returns its number and the run as it came".
#[derive(Clone, Copy)]
pub struct Stepped {
    pub run: Run,
    pub answer: u8,
}

impl Stepped {
    // The run as it came, with the refusal's number.
    fn refused(run: Run, answer: u8) -> Stepped
        ensures { result ≡ answered answer run }
    {
        Stepped { run, answer }
    }
}

// The step by its number: document 01 names this decoder.
#[tactic(auto, unfolding(crate::specs::Step::stepped))]
pub fn step(job: Job, records: &Records, run: Run, n: u16) -> Stepped
    requires { JobFits job (length records.now.cylinders.now) × Fits job run × RecordsFit records.now.cylinders.now records.now.values.now }
    ensures { result ≡ stepped job records.now.cylinders.now records.now.values.now run n }
{
    match n {
        0..=31 => rules::deliver(job, run, usize::from(n)),
        32..=47 => rules::read(job, records, run, usize::from(n - 32)),
        48..=63 => rules::send_barrier(job, run, usize::from(n - 48)),
        64 => rules::begin(job, run),
        65 => Stepped {
            run: rules::cut(run),
            answer: DONE,
        },
        _ => Stepped::refused(run, NO_SUCH_STEP),
    }
}
