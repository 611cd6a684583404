// The search for the lowest-numbered possible step.
ghost use Rattle.std.specs.Prelude.{◌≡◌};
ghost use Rattle.job.specs.Jobs.{JobSized};
ghost use Rattle.drain.specs.Drains.{first_from};
ghost use Rattle.drain.specs.Ready.{possible_in, full_tasks, found};

use crate::ready::{full_tasks, is_possible};
use flat::Flat;
use job::Job;

// The lowest number of a possible step of 0 to 63, by document 01's named form: a loop that yields it by `break`.
#[tactic(auto, using(crate::proofs::Draining::first_hit, crate::proofs::Draining::first_miss, crate::proofs::Draining::first_end, crate::proofs::Draining::found_low))]
fn find(job: &Job, flat: &Flat, full: &[bool; 16]) -> Option<u16>
    requires { JobSized job.now }
    ensures { result ≡ found (first_from 64 0 (possible_in job.now full.now flat.now)) }
{
    let mut n: u16 = 0;
    loop {
        if n == 64 {
            break None;
        }
        if is_possible(job, flat, full, n) {
            break Some(n);
        }
        n += 1;
    }
}

// The step that is next: the tasks with a full output are noted, then the search is made.
pub fn next(job: &Job, flat: &Flat) -> Option<u16>
    requires { JobSized job.now }
    ensures { result ≡ found (first_from 64 0 (possible_in job.now (full_tasks job.now flat.now) flat.now)) }
{
    let full = full_tasks(job, flat);
    find(job, flat, &full)
}
