// A task's outputs and inputs: full, marked, and what is put on every output.
#![tactic(auto)]

ghost use Rattle.std.specs.Prelude.{◌≡◌, true, ◌<◌};
ghost use Rattle.job.specs.Jobs.{JobSized};
ghost use Rattle.job.specs.Fits.{Sends};
ghost use Rattle.run.specs.Fit.{cargo_fits};
ghost use Rattle.outputs.specs.Outputs.{is_full, some_full, all_stored, unmarked, one_more_waits, sources_wait, carried, put_all};

pub mod parts;

use crate::parts::put_cargo;
use channel::{Cargo, Channel};
use job::Job;
use job::sends::{names, place_of};
use kinds::SOURCE;

fn is_full(ch: &Channel) -> bool
    ensures { result ≡ is_full ch.now }
{
    8 <= ch.count
}

// Whether some output of the task holds 8 items.
pub fn some_full(job: Job, held: &[Channel; 32], t: usize) -> bool
    requires { JobSized job }
    ensures { result ≡ some_full job held.now t }
{
    (0..job.channels).any(|c| names(job.from[c], t) && is_full(&held[c]))
}

// The marks without those of the task's inputs.
#[tactic(auto, unfolding(crate::specs::Outputs::each_place, crate::specs::Outputs::unmarked))]
pub fn unmark(job: Job, mut marked: [bool; 32], t: usize) -> [bool; 32]
    requires { JobSized job }
    ensures { result ≡ unmarked job marked t }
{
    for c in 0..job.channels {
        marked[c] &= !names(job.to[c], t);
    }
    marked
}

// Whether every task has stored its totals.
pub fn all_stored(job: Job, stored: [u8; 16]) -> bool
    requires { JobSized job }
    ensures { result ≡ all_stored job stored }
{
    stored[..job.tasks].iter().all(|&times| 0 < times)
}

// At a source one barrier more waits, and of those that waited no more than the `n` under way.
fn one_more_waits(n: u8, source: bool, waits: u8) -> u8
    requires { n < 255 }
    ensures { result ≡ one_more_waits n source waits }
{
    if source { waits.min(n) + 1 } else { waits }
}

// Every source gets a waiting barrier, besides those of the `under_way` snapshots.
#[tactic(auto, unfolding(crate::specs::Outputs::each_place, crate::specs::Outputs::sources_wait))]
pub fn sources_wait(job: Job, under_way: u8, mut waiting: [u8; 16]) -> [u8; 16]
    requires { JobSized job × (under_way < 255) }
    ensures { result ≡ sources_wait job under_way waiting }
{
    for t in 0..job.tasks {
        waiting[t] = one_more_waits(under_way, job.kinds[t] == SOURCE, waiting[t]);
    }
    waiting
}

// A barrier, or what the task sends for a record, on its output at `place` of `outputs`.
fn carried(job: &Job, t: usize, place: u32, outputs: u32, cargo: Cargo, ch: Channel) -> Channel
    requires { (t < 16) × Sends job.now × (cargo_fits cargo ≡ true) }
    ensures { result ≡ carried job.now t place outputs cargo ch }
{
    put_cargo(job.kinds[t], job.a[t], job.b[t], place, outputs, cargo, ch)
}

// The same on every output of the task.
#[tactic(auto, unfolding(crate::specs::Outputs::each_place, job::specs::Jobs::place_of, crate::specs::Outputs::put_all))]
pub fn put_all(job: Job, t: usize, cargo: Cargo, mut held: [Channel; 32]) -> [Channel; 32]
    requires { (t < 16) × Sends job × (cargo_fits cargo ≡ true) }
    ensures { result ≡ put_all job t cargo held }
{
    let outputs = place_of(&job, t, job.channels);
    let mut place = 0;
    for c in 0..job.channels {
        if names(job.from[c], t) {
            held[c] = carried(&job, t, place, outputs, cargo, held[c]);
            place += 1;
        }
    }
    held
}
