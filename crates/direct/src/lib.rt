// Direct evaluation (document 01): what each task receives when each source reads so many of its records, as totals.
#![tactic(auto)]

ghost use Rattle.std.specs.Prelude.{◌≡◌, ◌<◌};
ghost use Rattle.job.specs.Columns.{columns_of};
ghost use Rattle.job.specs.Jobs.{JobSized};
ghost use Rattle.direct.specs.Direct.{bad_count, fault35, refused_with, directed_of};

use job::{Job, Lent};
use kinds::SOURCE;
use tally::Totals;

mod walk;

pub const BAD_COUNTS: u8 = 35;

// The totals of every task; zero past the job's tasks. The answer stands beside them: document 01, "a refusal gives zero totals".
#[derive(Clone, Copy)]
pub struct Directed {
    pub totals: [Totals; 16],
    pub answer: u8,
}

fn is_bad_count(job: Job, t: usize, count: u32) -> bool
    requires { (t < job.tasks) × JobSized job }
    ensures { result ≡ bad_count job t count }
{
    if job.kinds[t] == SOURCE {
        return job.b[t].unsigned_abs() < count;
    }
    count != 0
}

fn has_fault_35(job: Job, counts: &[u32]) -> bool
    requires { JobSized job }
    ensures { result ≡ fault35 job counts.now }
{
    counts.len() != job.tasks || (0..job.tasks).any(|t| is_bad_count(job, t, counts[t]))
}

fn refused(answer: u8) -> Directed
    ensures { result ≡ refused_with answer }
{
    Directed {
        totals: [Totals::none(); 16],
        answer,
    }
}

// Each source reads as many records as its count says; the totals are of what every task then receives in all.
#[tactic(auto, using(job::proofs::Checks::checked_job, crate::proofs::Answers::check_refused, crate::proofs::Answers::counts_refused, crate::proofs::Answers::readable, crate::proofs::Answers::evaluated))]
pub fn direct(lent: &Lent, counts: &[u32]) -> Directed
    ensures { result ≡ directed_of (columns_of lent.now) counts.now }
{
    let job = match job::check(lent) {
        Ok(job) => job,
        Err(fault) => return refused(fault.into()),
    };
    if has_fault_35(job, counts) {
        return refused(BAD_COUNTS);
    }
    let totals = walk::all_read(job, &lent.records, counts);
    Directed { totals, answer: 0 }
}
