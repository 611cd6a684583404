// A list of steps.
#![tactic(auto)]

ghost use Rattle.std.specs.Prelude.{◌≡◌, ◌<◌, length};
ghost use Rattle.job.specs.Columns.{RecordsFit};
ghost use Rattle.job.specs.Fits.{JobFits};
ghost use Rattle.run.specs.Fit.{Fits};
ghost use Rattle.step.specs.Step.{stepped};
ghost use Rattle.lists.specs.Lists.{is_done, counted, listed_to};

use job::{Job, Records};
use run::Run;
use step::{DONE, SNAPSHOT_COMPLETE};

// The answer stands beside the run and the counts, as document 01 has it: refused, a list "reports zero counts".
#[derive(Clone, Copy)]
pub struct Listed {
    pub run: Run,
    pub answer: u8,
    pub done: usize,
    pub refused: usize,
}

fn is_done(answer: u8) -> bool
    ensures { result ≡ is_done answer }
{
    answer == DONE || answer == SNAPSHOT_COMPLETE
}

// One step more of a list, done or refused, and counted.
fn one_more(job: Job, records: &Records, l: Listed, n: u16) -> Listed
    requires { JobFits job (length records.now.cylinders.now) × Fits job l.run × RecordsFit records.now.cylinders.now records.now.values.now × (l.done < 9223372036854775808) × (l.refused < 9223372036854775808) }
    ensures { result ≡ counted l (stepped job records.now.cylinders.now records.now.values.now l.run n) }
{
    let s = step::step(job, records, l.run, n);
    let done = is_done(s.answer);
    Listed {
        run: s.run,
        answer: DONE,
        done: l.done + usize::from(done),
        refused: l.refused + usize::from(!done),
    }
}

// The steps of a list, in order.
#[tactic(auto, using(crate::proofs::Listing::listed_fits, crate::proofs::Listing::done_few, crate::proofs::Listing::refused_few), unfolding(crate::specs::Lists::listed_to))]
pub fn steps(job: Job, records: &Records, run: Run, numbers: &[u16]) -> Listed
    requires { JobFits job (length records.now.cylinders.now) × Fits job run × RecordsFit records.now.cylinders.now records.now.values.now }
    ensures { result ≡ listed_to job records.now.cylinders.now records.now.values.now run numbers.now (length numbers.now) }
{
    let mut l = Listed {
        run,
        answer: DONE,
        done: 0,
        refused: 0,
    };
    for &n in numbers {
        l = one_more(job, records, l, n);
    }
    l
}
