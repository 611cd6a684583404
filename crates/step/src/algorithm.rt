// Algorithm 1: a barrier received, a record received, and what a store completes.
ghost use Rattle.std.specs.Prelude.{◌≡◌, true, ◌<◌};
ghost use Rattle.tally.specs.Totals.{Room};
ghost use Rattle.job.specs.Jobs.{JobSized};
ghost use Rattle.job.specs.Fits.{Sends};
ghost use Rattle.run.specs.Fit.{cargo_fits, totals_at, TotalsFit};
ghost use Rattle.step.specs.Algorithm.{completed, turn_of, stored_by, barrier_received, taken_in, record_received};

use crate::{COUNT_FULL, DONE, OUTPUT_FULL, SNAPSHOT_COMPLETE, Stepped};
use channel::{Cargo, Channel};
use job::Job;
use run::Run;
use tally::{Record, Totals};

// The snapshot under way becomes the last complete one where every task has stored.
#[tactic(auto, unfolding(crate::specs::Algorithm::completed))]
pub fn complete(job: Job, mut run: Run) -> Stepped
    requires { JobSized job }
    ensures { result ≡ completed job run }
{
    if 0 < run.under_way && outputs::all_stored(job, run.stored) {
        let half = run.half;
        run.last = half;
        run.complete = true;
        run.half = [Totals::none(); 16];
        run.stored = [0; 16];
        run.under_way = 0;
        return Stepped {
            run,
            answer: SNAPSHOT_COMPLETE,
        };
    }
    Stepped { run, answer: DONE }
}

// Which of those under way a task stores next that has stored so many.
#[tactic(auto, unfolding(crate::specs::Algorithm::turn_of))]
fn turn(stored: u8, under: u8) -> u8
    ensures { (result ≡ turn_of stored under) × (result < 255) }
{
    if stored < under {
        stored
    } else {
        under.saturating_sub(1)
    }
}

// The task stores its totals and puts a barrier on every output.
#[tactic(auto, unfolding(crate::specs::Algorithm::stored_by))]
pub fn store(job: Job, mut run: Run, t: usize) -> Run
    requires { (t < 16) × Sends job }
    ensures { result ≡ stored_by job run t }
{
    run.half[t] = run.live[t];
    run.stored[t] = turn(run.stored[t], run.under_way) + 1;
    run.channels = outputs::put_all(job, t, Cargo::Barrier, run.channels);
    run
}

// The barrier at the head of channel `c` marks it; the last of the task's inputs to be marked has the task store and pass it on.
#[tactic(auto, using(outputs::proofs::Sending::marked_by), unfolding(crate::specs::Algorithm::barrier_received))]
pub fn receive_barrier(job: Job, mut run: Run, t: usize, c: usize, rest: Channel) -> Stepped
    requires { (t < 16) × (c < 32) × Sends job }
    ensures { result ≡ barrier_received job run t c rest }
{
    let mut marked = run.marked;
    marked[c] = true;
    if outputs::parts::all_marked(&job, &marked, t) {
        if outputs::some_full(job, &run.channels, t) {
            return Stepped::refused(run, OUTPUT_FULL);
        }
        run.marked = outputs::unmark(job, marked, t);
        run.channels[c] = rest;
        return complete(job, store(job, run, t));
    }
    run.marked = marked;
    run.channels[c] = rest;
    Stepped { run, answer: DONE }
}

// The record updates the task's totals, then is sent by the kind's rule.
#[tactic(auto, unfolding(crate::specs::Algorithm::taken_in))]
pub fn take_in(job: Job, mut run: Run, t: usize, got: Record) -> Run
    requires { (t < 16) × Sends job × (cargo_fits (Cargo.Record got) ≡ true) × Room (totals_at run.live t) }
    ensures { result ≡ taken_in job run t got }
{
    run.live[t] = run.live[t].with(got.value);
    run.channels = outputs::put_all(job, t, Cargo::Record(got), run.channels);
    run
}

// The record at the head of channel `c` is received by the task `t`.
#[tactic(auto, unfolding(crate::specs::Algorithm::record_received))]
pub fn receive_record(
    job: Job,
    mut run: Run,
    t: usize,
    c: usize,
    got: Record,
    rest: Channel,
) -> Stepped
    requires { (t < 16) × (c < 32) × Sends job × (cargo_fits (Cargo.Record got) ≡ true) × TotalsFit job t (totals_at run.live t) }
    ensures { result ≡ record_received job run t c got rest }
{
    if outputs::some_full(job, &run.channels, t) {
        return Stepped::refused(run, OUTPUT_FULL);
    }
    if 1048576 <= run.live[t].count {
        return Stepped::refused(run, COUNT_FULL);
    }
    run.channels[c] = rest;
    Stepped {
        run: take_in(job, run, t, got),
        answer: DONE,
    }
}
