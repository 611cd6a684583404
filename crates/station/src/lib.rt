// The entry points, over any columns, run and numbers. None has a `requires`: each checks 1 to 9 first, then 16, then answers its own.
#![tactic(auto)]

ghost use Rattle.std.specs.Prelude.{◌≡◌};
ghost use Rattle.job.specs.Columns.{columns_of};
ghost use Rattle.job.specs.Rules.{job_answer};
ghost use Rattle.run.specs.Runs.{fresh_run};
ghost use Rattle.direct.specs.Direct.{directed_of};
ghost use Rattle.station.specs.Entries.{admitted_of, step_on, steps_on, drain_on};

mod refusal;

use direct::Directed;
use drain::Drained;
use job::{Job, Lent};
use lists::Listed;
pub use refusal::{DOES_NOT_FIT, Refusal};
use run::Run;
use step::Stepped;

// The check of a job: 1 to 9, or 0.
pub fn check(lent: &Lent) -> u8
    ensures { result ≡ job_answer (columns_of lent.now) }
{
    match job::check(lent) {
        Ok(_) => 0,
        Err(fault) => fault.into(),
    }
}

// A fresh run; it needs no job.
pub fn fresh() -> Run
    ensures { result ≡ fresh_run }
{
    Run::fresh()
}

// The job by value, if the run fits it.
#[tactic(auto, using(crate::proofs::Admission::admit_fits, crate::proofs::Admission::admit_16, crate::proofs::Admission::admit_refused))]
fn admit(run: Run, lent: &Lent) -> Result<Job, Refusal>
    ensures { result ≡ admitted_of (columns_of lent.now) run }
{
    let job = job::check(lent)?;
    if run::fit::run_fits(job, run) {
        return Ok(job);
    }
    Err(Refusal::DoesNotFit)
}

// One step.
pub fn step(run: Run, lent: &Lent, n: u16) -> Stepped
    ensures { result ≡ step_on (columns_of lent.now) run n }
{
    match admit(run, lent) {
        Ok(job) => step::step(job, &lent.records, run, n),
        Err(refusal) => Stepped {
            run,
            answer: refusal.into(),
        },
    }
}

// A list of steps.
pub fn steps(run: Run, lent: &Lent, numbers: &[u16]) -> Listed
    ensures { result ≡ steps_on (columns_of lent.now) run numbers.now }
{
    match admit(run, lent) {
        Ok(job) => lists::steps(job, &lent.records, run, numbers),
        Err(refusal) => Listed {
            run,
            answer: refusal.into(),
            done: 0,
            refused: 0,
        },
    }
}

// A drain with a limit.
pub fn drain(run: Run, lent: &Lent, limit: u32) -> Drained
    ensures { result ≡ drain_on (columns_of lent.now) run limit }
{
    match admit(run, lent) {
        Ok(job) => drain::drain(job, &lent.records, run, limit),
        Err(refusal) => Drained {
            run,
            answer: refusal.into(),
            steps: 0,
        },
    }
}

// Direct evaluation, for so many records read by each source.
pub fn direct(lent: &Lent, counts: &[u32]) -> Directed
    ensures { result ≡ directed_of (columns_of lent.now) counts.now }
{
    direct::direct(lent, counts)
}

// One step on a run that the host lends and finds advanced.
pub fn step_lent(run: &mut Run, lent: &Lent, n: u16) -> u8
    ensures { (result ≡ (step_on (columns_of lent.now) run.old n).answer)
        × (run.new ≡ (step_on (columns_of lent.now) run.old n).run) }
{
    let r = step(*run, lent, n);
    *run = r.run;
    r.answer
}
